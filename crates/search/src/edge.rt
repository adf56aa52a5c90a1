ghost use Rattle.std.specs.Prelude.{◌≡◌, ◌≤◌};
ghost use Rattle.pool.specs.Ipv4.{ipv4};
ghost use Rattle.pool.specs.Fit.{Fit};
ghost use Rattle.search.specs.Down.{AllUsable};
ghost use Rattle.search.specs.Edge.{side_bit, Rises, Leftmost};

use super::descent::{Seen, Steps, see};
use pool::{Damage, Place};

// Down to the leftmost leaf of what stands at a link, to its first route.
pub fn leftmost(pool: &[u32], capacity: usize, start: u32) -> Result<Place, Damage>
    requires { Fit ipv4 capacity pool.now }
    ensures { Leftmost ipv4 capacity pool.now start result }
{
    let mut link = start;
    let mut lowest: u32 = 0;
    loop {
        match see(pool, capacity, link, lowest)? {
            Seen::Leaf(place) => {
                return Ok(place);
            }
            Seen::Inner(place, index) => {
                lowest = index + 1;
                link = pool::left_at(pool, capacity, place);
            }
        }
    }
}

// A side of an inner place, each with the bit that takes it.
#[derive(Clone, Copy, PartialEq, Eq)]
pub enum Side {
    Left = 0,
    Right = 1,
}

impl Side {
    // The bit that takes it.
    pub fn bit(self) -> u32
        ensures { result ≡ side_bit self }
    {
        self as u32
    }
}

// From the deepest of the levels up: the first at which the destination's bit takes this side.
pub fn ascend(
    pool: &[u32],
    capacity: usize,
    inner: &Steps,
    depth: usize,
    destination: u32,
    side: Side,
) -> Option<usize>
    requires fit { Fit ipv4 capacity pool.now }
    requires depth_bound { (depth ≤ 32) × AllUsable ipv4 capacity pool.now inner.now depth }
    ensures { Rises ipv4 capacity pool.now destination (side_bit side) inner.now depth result }
{
    for level in (0..depth).rev() {
        let mark = pool::mark_at(pool, capacity, Place(inner[level]));
        if bits::bit_of(destination, mark - 1) == side.bit() {
            return Some(level);
        }
    }
    None
}
