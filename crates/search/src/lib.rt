// Reading a pool: the way down by an address's bits, the exact search, and where a way goes on from: the leftmost leaf of a
// part, and the deepest level that took a side. The words may be anything: every place is tested
// before it is used, every loop ends, and what no sound pool has is answered as damage.
#![tactic(auto)]

mod descent;
mod edge;
mod exact;

pub use descent::{Seen, Steps, Way, down, see};
pub use edge::{Side, ascend, leftmost};
pub use exact::{along, find, follow};
