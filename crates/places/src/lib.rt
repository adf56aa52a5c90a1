// Which places are used. The first word of a place is its mark: 0 while the place is free.
#![tactic(auto)]

ghost use Rattle.std.specs.Prelude.{◌≡◌, ◌<◌};
ghost use Rattle.pool.specs.Ipv4.{ipv4};
ghost use Rattle.pool.specs.Fit.{Fit};
ghost use Rattle.places.specs.Marks.{mark_of, is_used, tally, Spare, FreePlace};

use pool::Place;

// The two sorts of places.
#[derive(Clone, Copy, PartialEq, Eq)]
pub enum Sort {
    Route,
    Inner,
}

// The mark of a place.
fn mark_of(pool: &[u32], capacity: usize, sort: Sort, place: Place) -> u32
    requires fit { Fit ipv4 capacity pool.now }
    requires place_lt_capacity { place.0 < capacity }
    ensures { result ≡ mark_of ipv4 capacity pool.now sort place.0 }
{
    match sort {
        Sort::Route => pool::kind_at(pool, place),
        Sort::Inner => pool::mark_at(pool, capacity, place),
    }
}

// How many places of a sort are used.
pub fn used(pool: &[u32], capacity: usize, sort: Sort) -> usize
    requires { Fit ipv4 capacity pool.now }
    ensures { result ≡ tally (is_used ipv4 capacity pool.now sort) capacity }
{
    let mut count = 0;
    for at in 0..capacity {
        let is_used = mark_of(pool, capacity, sort, Place(at)) != 0;
        if is_used {
            count += 1;
        }
    }
    count
}

// A free place of a sort. None is listed anywhere, so the marks are looked along.
pub fn free(pool: &[u32], capacity: usize, sort: Sort) -> Place
    requires fit { Fit ipv4 capacity pool.now }
    requires spare { Spare ipv4 capacity pool.now sort }
    ensures { FreePlace ipv4 capacity pool.now sort result.0 }
{
    let found = (0..capacity).find(|at| mark_of(pool, capacity, sort, Place(*at)) == 0);
    Place(found.unwrap())
}
