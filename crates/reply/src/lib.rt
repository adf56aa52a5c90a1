// The answers to commands as text, by reading the words only.
#![tactic(auto)]

mod line;
mod routes;
mod show;

pub use routes::{Words, list};
pub use show::{asked, changed, wrong};
