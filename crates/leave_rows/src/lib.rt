// The rows of words that a route taken out, or another payload, writes: each function writes just the words that its row names.
#![tactic(auto)]

ghost use Rattle.std.specs.Prelude.{◌≡◌, ◌+◌, ◌≤◌, ◌<◌, length};
ghost use Rattle.route.specs.Means.{payload_of};
ghost use Rattle.pool.specs.Layout as layout;
ghost use Rattle.pool.specs.Write.{writes};
ghost use Rattle.pool.specs.Ipv4.{ipv4};
ghost use Rattle.rows.specs.Writes.{link_writes, drop_writes, last_writes, swap_writes};

use pool::Place;
use route::Payload;

// A route out of a chain that goes on: the cell links past it.
pub fn take_link(pool: &mut [u32], cell: usize, place: Place)
    requires { (ipv4.seat place.0 + ipv4.next_offset < length pool.old) × (place.0 ≤ 65535) × (1 ≤ layout.count_in pool.old) × (cell < length pool.old) }
    ensures { pool.new ≡ writes (link_writes ipv4 pool.old place.0 cell) pool.old }
{
    let count = pool[pool::AT_COUNT];
    let at = pool::seat(place);
    let next = pool[at + pool::NEXT_OFFSET];
    pool[cell] = next;
    pool[at] = 0;
    pool[pool::AT_COUNT] = count - 1;
}

// The last route of an address, with its inner place: the cell above links to the sibling.
pub fn take_leaf(
    pool: &mut [u32],
    capacity: usize,
    up: usize,
    inner: Place,
    link: u32,
    place: Place,
)
    requires next_offset_in_bounds { (ipv4.seat place.0 + ipv4.next_offset < length pool.old) × (place.0 ≤ 65535) × (1 ≤ layout.count_in pool.old) × (up < length pool.old) }
    requires inner_in_bounds { (ipv4.joint capacity inner.0 < length pool.old) × (capacity ≤ 65535) × (inner.0 ≤ 65535) }
    ensures { pool.new ≡ writes (drop_writes ipv4 pool.old capacity place.0 inner.0 up link) pool.old }
{
    let count = pool[pool::AT_COUNT];
    let at = pool::seat(place);
    let above = pool::joint(capacity, inner);
    pool[up] = link;
    pool[above] = 0;
    pool[at] = 0;
    pool[pool::AT_COUNT] = count - 1;
}

// The table's last route.
pub fn take_last(pool: &mut [u32], place: Place)
    requires { (ipv4.seat place.0 + ipv4.next_offset < length pool.old) × (place.0 ≤ 65535) × (1 ≤ layout.count_in pool.old) }
    ensures { pool.new ≡ writes (last_writes ipv4 pool.old place.0) pool.old }
{
    let count = pool[pool::AT_COUNT];
    let at = pool::seat(place);
    pool[pool::AT_ROOT] = 0;
    pool[at] = 0;
    pool[pool::AT_COUNT] = count - 1;
}

// Another payload in a place.
pub fn swap_payload(pool: &mut [u32], place: Place, payload: Payload)
    requires { (ipv4.seat place.0 + ipv4.next_offset < length pool.old) × (place.0 ≤ 65535) }
    ensures { pool.new ≡ writes (swap_writes ipv4 place.0 (payload_of payload)) pool.old }
{
    let at = pool::seat(place);
    pool::write_payload(pool, at, payload);
}
