// The words of a line of text, and the numbers and addresses that they spell. Numbers that fit 32 bits are taken as they are, in
// every range or out of it, so that the call they are meant for can refuse them.
#![tactic(auto)]

mod line;
mod number;
mod wrong;

pub use line::{Line, find};
pub use number::{address, decimal};
pub use wrong::Fault;
