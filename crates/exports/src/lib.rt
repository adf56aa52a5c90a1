// The table for C and Rust: each public call under a plain name, with numbers in place of the table's types. A slice comes as
// a pointer and a count of words, an array as a pointer. `include/rishavand.h` is this page in C.
#![tactic(auto)]

mod beginning;
mod changing;
mod learning;
mod reading;

pub use beginning::{rishavand_fresh, rishavand_words};
pub use changing::{
    rishavand_add, rishavand_back_out, rishavand_change, rishavand_delete, rishavand_keep,
    rishavand_open, rishavand_step_back,
};
pub use learning::{rishavand_learned_add, rishavand_learned_change, rishavand_learned_delete};
pub use reading::{
    rishavand_first, rishavand_lookup, rishavand_mask_length, rishavand_masked, rishavand_next,
    rishavand_room, rishavand_sound,
};
