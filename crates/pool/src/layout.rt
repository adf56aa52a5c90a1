ghost use Rattle.std.specs.Prelude.{◌≡◌, ◌≤◌};
ghost use Rattle.pool.specs.Layout as layout;
ghost use Rattle.pool.specs.Ipv4.{ipv4};

use super::link::Place;

// The largest capacity.
pub const LIMIT: u32 = 512;

// The most changes that may stand in a trial.
pub const CHANGES: usize = 64;

// The words that the largest capacity needs.
pub const MOST_WORDS: usize = 1032 + 12 * (LIMIT as usize);

// The words of the head.
pub const AT_CAPACITY: usize = 0;

pub const AT_COUNT: usize = 1;

pub const AT_ROOT: usize = 2;

pub const AT_TRIAL: usize = 3;

pub const AT_STANDING: usize = 4;

// How far behind the beginning of a payload its origin stands.
pub const ORIGIN_OFFSET: usize = 3;

// How far behind the beginning of a route place its prefix and its next link stand.
pub const PREFIX_OFFSET: usize = 5;

pub const NEXT_OFFSET: usize = 7;

// How far behind the beginning of a change its prefix, the payload before and the payload after stand.
pub const CHANGED_OFFSET: usize = 1;

pub const OLD_OFFSET: usize = 3;

pub const NEW_OFFSET: usize = 8;

// The words that a capacity needs.
pub fn size_of(capacity: usize) -> usize
    requires { capacity ≤ 65535 }
    ensures { result ≡ layout.size ipv4 capacity }
{
    1032 + 12 * capacity
}

// Where a route place begins.
pub fn seat(place: Place) -> usize
    requires { place.0 ≤ 65535 }
    ensures { result ≡ ipv4.seat place.0 }
{
    8 + 8 * place.0
}

// Where an inner place begins.
pub fn joint(capacity: usize, place: Place) -> usize
    requires { (capacity ≤ 65535) × (place.0 ≤ 65535) }
    ensures { result ≡ ipv4.joint capacity place.0 }
{
    8 + 8 * capacity + 4 * place.0
}

// Where a recorded change begins.
pub fn slot(capacity: usize, change: usize) -> usize
    requires { (capacity ≤ 65535) × (change ≤ 65535) }
    ensures { result ≡ ipv4.slot capacity change }
{
    8 + 12 * capacity + 16 * change
}
