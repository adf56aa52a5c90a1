// The walk: the first route, and the next after a prefix that is held or not. Like the other reading it takes any words.
#![tactic(auto)]

mod walk;

pub use walk::{first, next};
