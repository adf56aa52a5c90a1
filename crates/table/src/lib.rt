// The public calls: each tests, then reads or changes the pool. None asks anything of its caller.
#![tactic(auto)]

mod change;

pub use begin::fresh;
pub use change::{add, back_out, change_hop, delete, keep_trial, open_trial, step_back};
pub use read::{first, lookup, mask_length, next, room_left, sound};
