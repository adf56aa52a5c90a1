// Whether a call may go on in a pool that is known to be sound, or which number it is due: the tests of document 01's table that come
// after 9, in its order.
#![tactic(auto)]

mod judge;

pub use judge::{judge_add, judge_change, judge_delete, judge_end, judge_open, judge_step_back};
