// An accepted step back or back out, carried out on the words of a sound pool.
#![tactic(auto)]

mod back;

pub use back::{back_out, step_back};
