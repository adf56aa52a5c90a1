ghost use Rattle.std.specs.Prelude.{◌≡◌, true, ◌↔◌, ◌+◌, ◌≤◌, ◌<◌, length};
ghost use Rattle.route.specs.Means.{prefix_of, hop_of, origin_of, payload_of, route_of};
ghost use Rattle.pool.specs.Layout as layout;
ghost use Rattle.pool.specs.Ipv4.{ipv4, hop_at, origin_at};
ghost use Rattle.pool.specs.Fit.{route_at};
ghost use Rattle.pool.specs.Means.{PayloadThere};

use super::layout;
use super::link::Place;
use route::{Hop, Length, Metric, Origin, Payload, Port, Prefix, Route};

// The hop of three words. What a kind does not use is not looked at, and a kind that is none is read as reject.
fn hop_at(pool: &[u32], at: usize) -> Hop
    requires { at + 2 < length pool.now }
    ensures { hop_of result ≡ hop_at pool.now at }
{
    match pool[at] {
        1 => Hop::Direct(Port(pool[at + 1])),
        2 => Hop::Via(Port(pool[at + 1]), pool[at + 2]),
        _ => Hop::Reject,
    }
}

// The origin of two words. A fixed one does not look at the metric, and a word that is no origin's is read as fixed.
fn origin_at(pool: &[u32], at: usize) -> Origin
    requires { at + 1 < length pool.now }
    ensures { origin_of result ≡ origin_at pool.now at }
{
    match pool[at] {
        1 => Origin::Learned(Metric(pool[at + 1])),
        _ => Origin::Fixed,
    }
}

// The payload whose words begin here.
pub fn payload_at(pool: &[u32], at: usize) -> Payload
    requires { at + 4 < length pool.now }
    ensures { payload_of result ≡ ipv4.payload_at pool.now at }
{
    Payload {
        hop: hop_at(pool, at),
        origin: origin_at(pool, at + layout::ORIGIN_OFFSET),
    }
}

// Whether the words here are a payload's.
pub fn payload_there(pool: &[u32], at: usize) -> bool
    requires { at + 4 < length pool.now }
    ensures { (result ≡ true) ↔ PayloadThere ipv4 pool.now at }
{
    let kind = pool[at];
    1 <= kind && kind <= 3 && pool[at + layout::ORIGIN_OFFSET] <= 1
}

// The prefix of two words.
pub fn prefix_at(pool: &[u32], at: usize) -> Prefix
    requires { at + 1 < length pool.now }
    ensures { prefix_of result ≡ layout.prefix_at ipv4 pool.now at }
{
    Prefix {
        address: pool[at],
        length: Length(pool[at + 1]),
    }
}

// The route in a place.
pub fn route_at(pool: &[u32], place: Place) -> Route
    requires address_words_in_bounds { ipv4.seat place.0 + ipv4.prefix_offset + ipv4.address_words < length pool.now }
    requires place_bound { place.0 ≤ 65535 }
    ensures { route_of result ≡ route_at ipv4 pool.now place.0 }
{
    let at = layout::seat(place);
    Route {
        prefix: prefix_at(pool, at + layout::PREFIX_OFFSET),
        payload: payload_at(pool, at),
    }
}

// The kind of a route place: 0 while it is free.
pub fn kind_at(pool: &[u32], place: Place) -> u32
    requires place_in_bounds { ipv4.seat place.0 < length pool.now }
    requires place_bound { place.0 ≤ 65535 }
    ensures { result ≡ layout.kind_at ipv4 pool.now place.0 }
{
    let at = layout::seat(place);
    pool[at]
}

// The link to the next route of the same address.
pub fn next_at(pool: &[u32], place: Place) -> u32
    requires next_offset_in_bounds { ipv4.seat place.0 + ipv4.next_offset < length pool.now }
    requires place_bound { place.0 ≤ 65535 }
    ensures { result ≡ layout.next_at ipv4 pool.now place.0 }
{
    let at = layout::seat(place);
    pool[at + layout::NEXT_OFFSET]
}

// The mark of an inner place: 0 while it is free, else its bit + 1.
pub fn mark_at(pool: &[u32], capacity: usize, place: Place) -> u32
    requires place_in_bounds { ipv4.joint capacity place.0 < length pool.now }
    requires capacity_bound { (capacity ≤ 65535) × (place.0 ≤ 65535) }
    ensures { result ≡ layout.mark_at ipv4 capacity pool.now place.0 }
{
    let at = layout::joint(capacity, place);
    pool[at]
}

// The link to an inner place's left side.
pub fn left_at(pool: &[u32], capacity: usize, place: Place) -> u32
    requires place_in_bounds { ipv4.joint capacity place.0 + 1 < length pool.now }
    requires capacity_bound { (capacity ≤ 65535) × (place.0 ≤ 65535) }
    ensures { result ≡ layout.left_at ipv4 capacity pool.now place.0 }
{
    let at = layout::joint(capacity, place);
    pool[at + 1]
}

// The link to its right side.
pub fn right_at(pool: &[u32], capacity: usize, place: Place) -> u32
    requires place_in_bounds { ipv4.joint capacity place.0 + 2 < length pool.now }
    requires capacity_bound { (capacity ≤ 65535) × (place.0 ≤ 65535) }
    ensures { result ≡ layout.right_at ipv4 capacity pool.now place.0 }
{
    let at = layout::joint(capacity, place);
    pool[at + 2]
}
