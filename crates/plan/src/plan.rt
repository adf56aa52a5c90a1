ghost use Rattle.std.specs.Prelude.{◌<◌, length as count};
ghost use Rattle.route.specs.Means.{prefix_of};
ghost use Rattle.pool.specs.Ipv4.{ipv4};
ghost use Rattle.pool.specs.Fit.{Fit};
ghost use Rattle.plan.specs.Steps.{WayUsable};
ghost use Rattle.plan.specs.Plan.{PutRight};
ghost use Rattle.plan.specs.Planned.{PutInPool, HungFrom, HeldRight, LoneRight, TakeRight};

use super::cells::{cell_of, chain_cell, level_of};
use pool::{Link, Place};
use route::{Length, Prefix};
use search::Steps;

// Where a route goes in.
#[derive(Clone, Copy)]
pub enum PutPlan {
    // The table is empty: the route becomes its root.
    First,
    // The address is held: at this cell.
    Hang(usize),
    // The address is new: its leaf is joined at this cell, under a new inner place that tests this bit.
    Join(usize, u32),
}

// Where a route comes out, and the place that it leaves.
#[derive(Clone, Copy)]
pub enum TakePlan {
    // Other routes of its address stay: the cell that links to it.
    Link(usize, Place),
    // The leaf goes: the cell above, the inner place that goes with it, and the link to the sibling.
    Leaf(usize, Place, u32, Place),
    // The table's last route.
    Last(Place),
}

// The cell that links to a route, and its place.
#[derive(Clone, Copy)]
pub struct Held {
    pub cell: usize,
    pub place: Place,
}

// The leaf that the address leads to is its own, or shows by its bits where the two part.
pub fn plan_put(pool: &[u32], capacity: usize, prefix: Prefix) -> PutPlan
    requires { Fit ipv4 capacity pool.now }
    ensures put_right { PutRight ipv4 capacity pool.now (prefix_of prefix) result }
    ensures put_in_pool { PutInPool 32 pool.now result }
{
    let way = search::down(pool, capacity, prefix.address);
    let Ok(Some(first)) = way.end else {
        return PutPlan::First;
    };
    let inner = way.inner;
    let held = pool::prefix_at(pool, pool::seat(first) + pool::PREFIX_OFFSET);
    if held.address == prefix.address {
        let from = cell_of(pool, capacity, inner, way.depth, prefix.address);
        return PutPlan::Hang(chain_cell(pool, capacity, from, first, prefix.length));
    }
    let index = bits::parting(prefix.address, held.address);
    let level = level_of(pool, capacity, inner, way.depth, index);
    PutPlan::Join(cell_of(pool, capacity, inner, level, prefix.address), index)
}

// The first route that is not longer is the one of this length, where there is one.
fn hung_at(pool: &[u32], capacity: usize, from: usize, first: Place, length: Length) -> Option<Held>
    requires fit { Fit ipv4 capacity pool.now }
    requires first_lt_capacity { (first.0 < capacity) × (from < count pool.now) }
    ensures { HungFrom ipv4 capacity pool.now from first.0 length.0 result }
{
    let cell = chain_cell(pool, capacity, from, first, length);
    match pool::link_from(pool[cell])? {
        Link::Route(place) => {
            if place.0 < capacity {
                Some(Held { cell, place })
            } else {
                None
            }
        }
        Link::Inner(_) => None,
    }
}

// Down by the address and along its routes. An absent prefix may be given the place of another.
pub fn held_at(pool: &[u32], capacity: usize, prefix: Prefix) -> Option<Held>
    requires { Fit ipv4 capacity pool.now }
    ensures { HeldRight ipv4 capacity pool.now (prefix_of prefix) result }
{
    let way = search::down(pool, capacity, prefix.address);
    let first = way.end.ok()??;
    let from = cell_of(pool, capacity, way.inner, way.depth, prefix.address);
    hung_at(pool, capacity, from, first, prefix.length)
}

// The last route of a leaf takes the leaf and the inner place above it along: what stays there is the other side.
fn plan_lone(
    pool: &[u32],
    capacity: usize,
    inner: Steps,
    depth: usize,
    address: u32,
    place: Place,
) -> TakePlan
    requires fit { Fit ipv4 capacity pool.now }
    requires way_usable { WayUsable ipv4 capacity pool.now inner depth }
    requires place_lt_capacity { place.0 < capacity }
    ensures { LoneRight ipv4 capacity pool.now inner depth address place.0 result }
{
    if depth == 0 {
        return TakePlan::Last(place);
    }
    let above = depth - 1;
    let node = Place(inner[above]);
    let mark = pool::mark_at(pool, capacity, node);
    let up = cell_of(pool, capacity, inner, above, address);
    let on_left = bits::bit_of(address, mark - 1) == 0;
    if on_left {
        TakePlan::Leaf(up, node, pool::right_at(pool, capacity, node), place)
    } else {
        TakePlan::Leaf(up, node, pool::left_at(pool, capacity, node), place)
    }
}

// A route that has others of its address before or behind it leaves a leaf; one alone takes its leaf along.
pub fn plan_take(pool: &[u32], capacity: usize, prefix: Prefix) -> Option<TakePlan>
    requires { Fit ipv4 capacity pool.now }
    ensures { TakeRight ipv4 capacity pool.now (prefix_of prefix) result }
{
    let way = search::down(pool, capacity, prefix.address);
    let first = way.end.ok()??;
    let from = cell_of(pool, capacity, way.inner, way.depth, prefix.address);
    let held = hung_at(pool, capacity, from, first, prefix.length)?;
    let is_alone = held.cell == from && pool::next_at(pool, held.place) == 0;
    if is_alone {
        Some(plan_lone(
            pool,
            capacity,
            way.inner,
            way.depth,
            prefix.address,
            held.place,
        ))
    } else {
        Some(TakePlan::Link(held.cell, held.place))
    }
}
