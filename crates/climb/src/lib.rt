// The longest match: from the leaf that the address leads to, up the way to the first route that matches. The words may be
// anything: every place is tested before it is used, every loop ends, and what no sound pool has is answered as damage.
#![tactic(auto)]

mod climb;

pub use climb::longest_match;
