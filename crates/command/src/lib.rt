// A line of text taken as a command, and nothing done about it.
#![tactic(auto)]

mod asked;
mod line;
mod phrase;

pub use asked::Command;
pub use line::parse;
