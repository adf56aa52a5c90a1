// Changes of a pool that is known to be sound: where a route goes in or comes out is read first, then the words are
// written in one row.
#![tactic(auto)]

mod change;

pub use change::{put_in, swap, take_out};
