ghost use Rattle.std.specs.Prelude.{◌≡◌, ◌<◌};
ghost use Rattle.bits.specs.Address.{bit};
ghost use Rattle.patricia.specs.Way.{toward};
ghost use Rattle.pool.specs.Layout.{left_at, right_at};
ghost use Rattle.pool.specs.Ipv4.{ipv4};
ghost use Rattle.pool.specs.Fit.{Fit};
ghost use Rattle.search.specs.Seen.{SeenRight};
ghost use Rattle.search.specs.Down.{Ways};

use pool::{Damage, Link, Place};
use route::Prefix;

// What stands at a link of the tree: a leaf's first route, or an inner place and its bit.
#[derive(Clone, Copy, PartialEq, Eq)]
pub enum Seen {
    Leaf(Place),
    Inner(Place, u32),
}

// What stands at a link, where no bit below the lowest may be tested.
pub fn see(pool: &[u32], capacity: usize, link: u32, lowest: u32) -> Result<Seen, Damage>
    requires { Fit ipv4 capacity pool.now }
    ensures { SeenRight ipv4 capacity pool.now link lowest result }
{
    match pool::link_from(link).ok_or(Damage)? {
        Link::Route(place) => {
            if place.0 < capacity {
                Ok(Seen::Leaf(place))
            } else {
                Err(Damage)
            }
        }
        Link::Inner(place) => {
            if capacity <= place.0 {
                return Err(Damage);
            }
            let mark = pool::mark_at(pool, capacity, place);
            if mark <= lowest {
                return Err(Damage);
            }
            if Prefix::WIDTH < mark {
                return Err(Damage);
            }
            Ok(Seen::Inner(place, mark - 1))
        }
    }
}

// The link to the side of an inner place that the destination's bit takes.
pub fn side_at(pool: &[u32], capacity: usize, place: Place, index: u32, destination: u32) -> u32
    requires fit { Fit ipv4 capacity pool.now }
    requires place_lt_capacity { (place.0 < capacity) × (index < 32) }
    ensures { result ≡ toward (bit 32 index destination) (left_at ipv4 capacity pool.now place.0) (right_at ipv4 capacity pool.now place.0) }
{
    if bits::bit_of(destination, index) == 0 {
        pool::left_at(pool, capacity, place)
    } else {
        pool::right_at(pool, capacity, place)
    }
}

// The inner places of a way, from the root down: at most one for each bit.
pub type Steps = [usize; 32];

// The inner places passed, and where the way ended: at a leaf's first route; nowhere, since the pool has no route; or where the words are
// no tree.
#[derive(Clone, Copy)]
pub struct Way {
    pub inner: Steps,
    pub depth: usize,
    pub end: Result<Option<Place>, Damage>,
}

// Down from the root by the destination's bits.
pub fn down(pool: &[u32], capacity: usize, destination: u32) -> Way
    requires { Fit ipv4 capacity pool.now }
    ensures { Ways ipv4 capacity pool.now destination result.inner result.depth result.end }
{
    let mut inner = [0usize; 32];
    let mut depth: usize = 0;
    let mut lowest: u32 = 0;
    let mut link = pool[pool::AT_ROOT];
    if link == 0 {
        return Way {
            inner,
            depth,
            end: Ok(None),
        };
    }
    let end = loop {
        match see(pool, capacity, link, lowest) {
            Ok(Seen::Leaf(place)) => break Ok(Some(place)),
            Ok(Seen::Inner(place, index)) => {
                inner[depth] = place.0;
                depth += 1;
                lowest = index + 1;
                link = side_at(pool, capacity, place, index, destination);
            }
            Err(damage) => break Err(damage),
        }
    };
    Way { inner, depth, end }
}
