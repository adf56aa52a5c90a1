ghost use Rattle.std.specs.Prelude.{◌≤◌, ◌<◌};
ghost use Rattle.route.specs.Means.{prefix_of};
ghost use Rattle.route.specs.Answers.{answer_number, found_value};
ghost use Rattle.pool.specs.Ipv4.{ipv4};
ghost use Rattle.pool.specs.Fit.{Fit};
ghost use Rattle.search.specs.Down.{AllUsable, Ways, EndsAt};
ghost use Rattle.walk.specs.Walk.{Fronts, Firsts, RightSide, Rejoined, Goes, Nexts};

use pool::Place;
use route::{Answer, Prefix, Refusal, Route};
use search::{Side, Steps, Way, along, ascend, down, leftmost};

// The first route of what stands at a link.
fn front(pool: &[u32], capacity: usize, link: u32) -> Answer<Route>
    requires { Fit ipv4 capacity pool.now }
    ensures { Fronts ipv4 capacity pool.now link (answer_number result) (found_value result) }
{
    let place = leftmost(pool, capacity, link)?;
    Ok(pool::route_at(pool, place))
}

// The first route.
pub fn first(pool: &[u32], capacity: usize) -> Answer<Route>
    requires { Fit ipv4 capacity pool.now }
    ensures { Firsts ipv4 capacity pool.now (answer_number result) (found_value result) }
{
    let link = pool[pool::AT_ROOT];
    let is_empty = link == 0;
    if is_empty {
        return Err(Refusal::NoFurther);
    }
    front(pool, capacity, link)
}

// The first route to the right of the way, from a level of it up.
fn right_side(
    pool: &[u32],
    capacity: usize,
    inner: &Steps,
    level: usize,
    destination: u32,
) -> Answer<Route>
    requires fit { Fit ipv4 capacity pool.now }
    requires level_bound { (level ≤ 32) × AllUsable ipv4 capacity pool.now inner.now level }
    ensures { RightSide ipv4 capacity pool.now destination inner.now level (answer_number result) (found_value result) }
{
    let rise = ascend(pool, capacity, inner, level, destination, Side::Left);
    let at = rise.ok_or(Refusal::NoFurther)?;
    front(
        pool,
        capacity,
        pool::right_at(pool, capacity, Place(inner[at])),
    )
}

// From the deepest of the levels up: how many are left of those that test a bit before the one at which two addresses part.
fn rejoin(pool: &[u32], capacity: usize, inner: &Steps, depth: usize, parted: u32) -> usize
    requires fit { Fit ipv4 capacity pool.now }
    requires depth_bound { (depth ≤ 32) × AllUsable ipv4 capacity pool.now inner.now depth }
    ensures { Rejoined ipv4 capacity pool.now parted inner.now depth result }
{
    for above in (0..depth).rev() {
        if pool::mark_at(pool, capacity, Place(inner[above])) <= parted {
            return above + 1;
        }
    }
    0
}

// After a prefix whose address has a leaf: along the leaf's routes, or to the right of the way.
fn within(pool: &[u32], capacity: usize, way: Way, leaf: Place, prefix: Prefix) -> Answer<Route>
    requires fit { Fit ipv4 capacity pool.now }
    requires ways { Ways ipv4 capacity pool.now prefix.address way.inner way.depth way.end × EndsAt way.end leaf }
    ensures { Goes ipv4 capacity pool.now (prefix_of prefix) leaf.0 32 (answer_number result) (found_value result) }
{
    let inner = way.inner;
    match along(pool, capacity, leaf, |held| prefix.comes_before(held))? {
        Some(place) => Ok(pool::route_at(pool, place)),
        None => right_side(pool, capacity, &inner, way.depth, prefix.address),
    }
}

// After a prefix whose address parts from the leaf's: what stands below the parting comes after it whole, or before it whole.
fn aside(
    pool: &[u32],
    capacity: usize,
    way: Way,
    leaf: Place,
    prefix: Prefix,
    parted: u32,
) -> Answer<Route>
    requires fit { Fit ipv4 capacity pool.now }
    requires ways { Ways ipv4 capacity pool.now prefix.address way.inner way.depth way.end × EndsAt way.end leaf × (parted < 32) }
    ensures { Goes ipv4 capacity pool.now (prefix_of prefix) leaf.0 parted (answer_number result) (found_value result) }
{
    let inner = way.inner;
    let depth = way.depth;
    let level = rejoin(pool, capacity, &inner, depth, parted);
    if bits::bit_of(prefix.address, parted) == 1 {
        return right_side(pool, capacity, &inner, level, prefix.address);
    }
    if level == depth {
        return front(pool, capacity, pool::route_link(leaf));
    }
    front(pool, capacity, pool::inner_link(Place(inner[level])))
}

// The next route after a prefix, held or not.
pub fn next(pool: &[u32], capacity: usize, prefix: Prefix) -> Answer<Route>
    requires { Fit ipv4 capacity pool.now }
    ensures { Nexts ipv4 capacity pool.now (prefix_of prefix) (answer_number result) (found_value result) }
{
    let way = down(pool, capacity, prefix.address);
    let leaf = way.end?.ok_or(Refusal::NoFurther)?;
    let held = pool::prefix_at(pool, pool::seat(leaf) + pool::PREFIX_OFFSET);
    let parted = bits::parting(prefix.address, held.address);
    if parted == Prefix::WIDTH {
        within(pool, capacity, way, leaf, prefix)
    } else {
        aside(pool, capacity, way, leaf, prefix, parted)
    }
}
