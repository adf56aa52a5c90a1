// Whether the words are one tree of routes as document 01 describes it.
#![tactic(auto)]

mod chain;
mod tree;

pub use tree::{Uses, audit_root};
