// The call that makes a fresh table in a lent buffer.
#![tactic(auto)]

mod begin;

pub use begin::fresh;
