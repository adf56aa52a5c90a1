// The calls that read a table: none of them writes a word.
#![tactic(auto)]

mod read;

pub use read::{first, lookup, mask_length, next, room_left, sound};
