ghost use Rattle.std.specs.Prelude.{◌<◌, Bool};
ghost use Rattle.model.specs.Prefix.{Prefix as ModelPrefix};
ghost use Rattle.route.specs.Means.{prefix_of};
ghost use Rattle.pool.specs.Ipv4.{ipv4};
ghost use Rattle.pool.specs.Fit.{Fit};
ghost use Rattle.search.specs.Chain.{HungRight};
ghost use Rattle.search.specs.Find.{Tests, SpotIn, Finds};

use super::descent::down;
use pool::{Damage, Link, Place};
use route::{Length, Prefix};

// What a link of a leaf leads to, where the lengths must be below that of the route before: another route, or the end.
pub fn follow(
    pool: &[u32],
    capacity: usize,
    place: Place,
    length: Length,
) -> Result<Option<Place>, Damage>
    requires fit { Fit ipv4 capacity pool.now }
    requires place_lt_capacity { place.0 < capacity }
    ensures { HungRight ipv4 capacity pool.now place.0 length.0 result }
{
    match pool::link_from(pool::next_at(pool, place)) {
        None => Ok(None),
        Some(Link::Route(next)) => {
            if capacity <= next.0 {
                return Err(Damage);
            }
            let prefix = pool::prefix_at(pool, pool::seat(next) + pool::PREFIX_OFFSET);
            if prefix.length.0 < length.0 {
                Ok(Some(next))
            } else {
                Err(Damage)
            }
        }
        Some(Link::Inner(_)) => Err(Damage),
    }
}

// The place of the first route of a leaf that passes a test.
pub fn along<F: Fn(Prefix) -> bool>(
    pool: &[u32],
    capacity: usize,
    first: Place,
    passes: F,
) -> Result<Option<Place>, Damage>
    requires fit { Fit ipv4 capacity pool.now }
    requires first_lt_capacity { first.0 < capacity }
    requires callable { F.IsAlwaysCallable passes }
    ensures { (test : ModelPrefix → Bool) → Tests (F.post passes) test → SpotIn ipv4 capacity pool.now first.0 test result }
{
    let mut hung = Some(first);
    while let Some(place) = hung {
        let held = pool::prefix_at(pool, pool::seat(place) + pool::PREFIX_OFFSET);
        if passes(held) {
            return Ok(Some(place));
        }
        hung = follow(pool, capacity, place, held.length)?;
    }
    Ok(None)
}

// Exact search: down by the prefix's address, and along the leaf's routes for the length.
pub fn find(pool: &[u32], capacity: usize, prefix: Prefix) -> Result<Option<Place>, Damage>
    requires { Fit ipv4 capacity pool.now }
    ensures { Finds ipv4 capacity pool.now (prefix_of prefix) result }
{
    let way = down(pool, capacity, prefix.address);
    match way.end? {
        Some(leaf) => along(pool, capacity, leaf, |held| prefix.is(held)),
        None => Ok(None),
    }
}
