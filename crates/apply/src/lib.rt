// An accepted change or trial's call, carried out on the words of a sound pool: the table changed, and the change recorded if
// a trial is open.
#![tactic(auto)]

mod make;

pub use make::{add, change, delete, keep, open};
