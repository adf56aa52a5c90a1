// The table's own types. A port, a place in the pool and a prefix length are three kinds of number that can't be
// mixed; the place stands with the pool.
#![tactic(auto)]

mod answer;
mod hop;
mod origin;
mod prefix;
mod show;

pub use answer::{Answer, Refusal, measure, number};
pub use hop::{Hop, Payload, Port, Route};
pub use origin::{Hand, Metric, Origin};
pub use prefix::{Length, Prefix};
