// Whether the changes of a trial are good, and could be taken back one by one, newest first.
#![tactic(auto)]

mod changes;

pub use changes::{can_take_back, changes_are_good};
