// The rows of words that a route put in writes: each function writes just the words that its row names.
#![tactic(auto)]

ghost use Rattle.std.specs.Prelude.{◌≡◌, ◌+◌, ◌≤◌, ◌<◌, length};
ghost use Rattle.route.specs.Means.{route_of};
ghost use Rattle.pool.specs.Layout as layout;
ghost use Rattle.bits.specs.Address.{bit};
ghost use Rattle.patricia.specs.Way.{toward};
ghost use Rattle.pool.specs.Write.{writes};
ghost use Rattle.pool.specs.Ipv4.{ipv4};
ghost use Rattle.rows.specs.Writes.{route_writes, inner_writes, first_writes, hang_writes, join_writes};

use pool::Place;
use route::Route;

// A route put into a place, with the link to the next.
fn write_route(pool: &mut [u32], place: Place, route: Route, next: u32)
    requires { (ipv4.seat place.0 + ipv4.next_offset < length pool.old) × (place.0 ≤ 65535) }
    ensures { pool.new ≡ writes (route_writes ipv4 place.0 (route_of route) next) pool.old }
{
    let at = pool::seat(place);
    let payload = route.payload;
    let prefix = route.prefix;
    pool::write_payload(pool, at, payload);
    pool::write_prefix(pool, at + pool::PREFIX_OFFSET, prefix);
    pool[at + pool::NEXT_OFFSET] = next;
}

// The first route of an empty table.
pub fn put_first(pool: &mut [u32], place: Place, route: Route)
    requires { (ipv4.seat place.0 + ipv4.next_offset < length pool.old) × (place.0 ≤ 65535) × (layout.count_in pool.old ≤ 65535) }
    ensures { pool.new ≡ writes (first_writes ipv4 pool.old place.0 (route_of route)) pool.old }
{
    let count = pool[pool::AT_COUNT];
    write_route(pool, place, route, 0);
    pool[pool::AT_ROOT] = pool::route_link(place);
    pool[pool::AT_COUNT] = count + 1;
}

// Another length of a held address, at the cell between the longer and the shorter ones.
pub fn put_hung(pool: &mut [u32], place: Place, route: Route, cell: usize)
    requires { (ipv4.seat place.0 + ipv4.next_offset < length pool.old) × (place.0 ≤ 65535) × (layout.count_in pool.old ≤ 65535) × (cell < length pool.old) }
    ensures { pool.new ≡ writes (hang_writes ipv4 pool.old place.0 (route_of route) cell) pool.old }
{
    let count = pool[pool::AT_COUNT];
    let next = pool[cell];
    write_route(pool, place, route, next);
    pool[cell] = pool::route_link(place);
    pool[pool::AT_COUNT] = count + 1;
}

// An inner place that tests a bit.
fn write_inner(pool: &mut [u32], capacity: usize, place: Place, index: u32, left: u32, right: u32)
    requires { (ipv4.joint capacity place.0 + 2 < length pool.old) × (capacity ≤ 65535) × (place.0 ≤ 65535) × (index < 32) }
    ensures { pool.new ≡ writes (inner_writes ipv4 capacity place.0 index left right) pool.old }
{
    let at = pool::joint(capacity, place);
    pool[at] = index + 1;
    pool[at + 1] = left;
    pool[at + 2] = right;
}

// What goes left and what goes right.
#[derive(Clone, Copy)]
struct Both(u32, u32);

// The side that the address takes at a bit gets its leaf.
fn sides(address: u32, index: u32, leaf: u32, other: u32) -> Both
    requires { index < 32 }
    ensures { (result.0 ≡ toward (bit 32 index address) leaf other) × (result.1 ≡ toward (bit 32 index address) other leaf) }
{
    let on_left = bits::bit_of(address, index) == 0;
    if on_left {
        Both(leaf, other)
    } else {
        Both(other, leaf)
    }
}

// A new address, joined with what the cell links to under a new inner place.
pub fn put_joined(
    pool: &mut [u32],
    capacity: usize,
    place: Place,
    inner: Place,
    route: Route,
    cell: usize,
    index: u32,
)
    requires next_offset_in_bounds { (ipv4.seat place.0 + ipv4.next_offset < length pool.old) × (place.0 ≤ 65535) × (layout.count_in pool.old ≤ 65535) × (cell < length pool.old) }
    requires inner_in_bounds { (ipv4.joint capacity inner.0 + 2 < length pool.old) × (capacity ≤ 65535) × (inner.0 ≤ 65535) × (index < 32) }
    ensures { pool.new ≡ writes (join_writes ipv4 pool.old capacity place.0 inner.0 (route_of route) index cell) pool.old }
{
    let count = pool[pool::AT_COUNT];
    let old = pool[cell];
    let prefix = route.prefix;
    let both = sides(prefix.address, index, pool::route_link(place), old);
    write_route(pool, place, route, 0);
    write_inner(pool, capacity, inner, index, both.0, both.1);
    pool[cell] = pool::inner_link(inner);
    pool[pool::AT_COUNT] = count + 1;
}
