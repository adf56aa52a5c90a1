ghost use Rattle.std.specs.Prelude.{◌≡◌, ◌+◌, ◌<◌, length};
ghost use Rattle.route.specs.Means.{prefix_of, hop_of, origin_of, payload_of};
ghost use Rattle.pool.specs.Write.{writes};
ghost use Rattle.pool.specs.Written.{prefix_writes, hop_writes, origin_writes};
ghost use Rattle.pool.specs.Ipv4.{ipv4};

use super::layout;
use route::{Hop, Origin, Payload, Prefix};

// A hop's three words. What a kind does not use is cleared.
fn write_hop(pool: &mut [u32], at: usize, hop: Hop)
    requires { at + 2 < length pool.old }
    ensures { pool.new ≡ writes (hop_writes at (hop_of hop)) pool.old }
{
    match hop {
        Hop::Direct(port) => {
            pool[at] = 1;
            pool[at + 1] = port.0;
            pool[at + 2] = 0;
        }
        Hop::Via(port, gateway) => {
            pool[at] = 2;
            pool[at + 1] = port.0;
            pool[at + 2] = gateway;
        }
        Hop::Reject => {
            pool[at] = 3;
            pool[at + 1] = 0;
            pool[at + 2] = 0;
        }
    }
}

// An origin's two words. A fixed one has no metric.
fn write_origin(pool: &mut [u32], at: usize, origin: Origin)
    requires { at + 1 < length pool.old }
    ensures { pool.new ≡ writes (origin_writes at (origin_of origin)) pool.old }
{
    match origin {
        Origin::Fixed => {
            pool[at] = 0;
            pool[at + 1] = 0;
        }
        Origin::Learned(metric) => {
            pool[at] = 1;
            pool[at + 1] = metric.0;
        }
    }
}

// A payload's words.
pub fn write_payload(pool: &mut [u32], at: usize, payload: Payload)
    requires { at + 4 < length pool.old }
    ensures { pool.new ≡ writes (ipv4.put_payload at (payload_of payload)) pool.old }
{
    let hop = payload.hop;
    let origin = payload.origin;
    write_hop(pool, at, hop);
    write_origin(pool, at + layout::ORIGIN_OFFSET, origin);
}

// A prefix's two words.
pub fn write_prefix(pool: &mut [u32], at: usize, prefix: Prefix)
    requires { at + 1 < length pool.old }
    ensures { pool.new ≡ writes (prefix_writes ipv4 at (prefix_of prefix)) pool.old }
{
    pool[at] = prefix.address;
    pool[at + 1] = prefix.length.0;
}
