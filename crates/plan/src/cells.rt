ghost use Rattle.std.specs.Prelude.{◌<◌};
ghost use Rattle.pool.specs.Ipv4.{ipv4};
ghost use Rattle.pool.specs.Fit.{Fit};
ghost use Rattle.plan.specs.Steps.{WayUsable, CellRight, LevelRight, ChainCell};

use pool::Place;
use route::Length;
use search::Steps;

// A place does not say which side the way took, so the address's bit says it again.
pub fn cell_of(pool: &[u32], capacity: usize, inner: Steps, depth: usize, address: u32) -> usize
    requires fit { Fit ipv4 capacity pool.now }
    requires way_usable { WayUsable ipv4 capacity pool.now inner depth }
    ensures { CellRight ipv4 capacity pool.now inner depth address result }
{
    if depth == 0 {
        return 2;
    }
    let place = Place(inner[depth - 1]);
    let mark = pool::mark_at(pool, capacity, place);
    let side = bits::bit_of(address, mark - 1);
    pool::joint(capacity, place) + 1 + side as usize
}

// The bits grow down the way, so the first place that tests a later bit ends the count.
pub fn level_of(pool: &[u32], capacity: usize, inner: Steps, depth: usize, index: u32) -> usize
    requires fit { Fit ipv4 capacity pool.now }
    requires way_usable { WayUsable ipv4 capacity pool.now inner depth }
    ensures { LevelRight ipv4 capacity pool.now inner depth index result }
{
    for level in 0..depth {
        let mark = pool::mark_at(pool, capacity, Place(inner[level]));
        if index < mark - 1 {
            return level;
        }
    }
    depth
}

// The routes of an address hang longest first, so the cell is before the first that is not longer.
pub fn chain_cell(pool: &[u32], capacity: usize, from: usize, first: Place, length: Length) -> usize
    requires fit { Fit ipv4 capacity pool.now }
    requires first_lt_capacity { first.0 < capacity }
    ensures { ChainCell ipv4 capacity pool.now from first.0 length.0 result }
{
    let mut cell = from;
    let mut place = first;
    loop {
        let held = pool::prefix_at(pool, pool::seat(place) + pool::PREFIX_OFFSET);
        let is_here = held.length.0 <= length.0;
        if is_here {
            return cell;
        }
        cell = pool::seat(place) + pool::NEXT_OFFSET;
        let Ok(Some(next)) = search::follow(pool, capacity, place, held.length) else {
            return cell;
        };
        place = next;
    }
}
