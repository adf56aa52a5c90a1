// A run of commands from standard input over one pool, with or without their answers on standard output. Two programs stand
// on it, which differ in what they write and in nothing else.
#![tactic(auto)]

mod input;

pub use input::run;
