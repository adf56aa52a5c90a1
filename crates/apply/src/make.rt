ghost use Rattle.std.specs.Prelude.{◌≡◌, ◌<◌};
ghost use Rattle.model.specs.Call as call;
ghost use Rattle.pool.specs.Layout as layout;
ghost use Rattle.route.specs.Means.{prefix_of, hand_is, payload_of, route_of};
ghost use Rattle.pool.specs.Action.{action_word};
ghost use Rattle.pool.specs.Ipv4.{ipv4};
ghost use Rattle.pool.specs.Fit.{Fit};
ghost use Rattle.apply.specs.Does.{Accepted, Does};
ghost use Rattle.apply.specs.Noted.{Noted, HeldPayload};

use pool::Action;
use route::{Hand, Hop, Origin, Payload, Prefix, Route};

// What stands where no route is held; nobody asks for it.
const NONE: Payload = Payload {
    hop: Hop::Reject,
    origin: Origin::Fixed,
};

// The payload that a prefix has, before it is taken out or changed.
fn held_payload(pool: &[u32], capacity: usize, prefix: Prefix) -> Payload
    requires { Fit ipv4 capacity pool.now }
    ensures { HeldPayload ipv4 capacity pool.now (prefix_of prefix) (payload_of result) }
{
    match search::find(pool, capacity, prefix) {
        Ok(Some(place)) => pool::payload_at(pool, pool::seat(place)),
        Ok(None) => NONE,
        Err(_) => NONE,
    }
}

// A change is recorded if a trial is open.
fn note(
    pool: &mut [u32],
    capacity: usize,
    action: Action,
    prefix: Prefix,
    old: Payload,
    new: Payload,
)
    requires fit { Fit ipv4 capacity pool.old }
    requires pool_bound { layout.trial_in pool.old ≡ 1 → layout.standing_in pool.old < 64 }
    ensures { Noted ipv4 capacity (action_word action) (prefix_of prefix) (payload_of old) (payload_of new) pool.old pool.new }
{
    let is_open = pool[pool::AT_TRIAL] == 1;
    if is_open {
        trial_rows::record_change(pool, capacity, action, prefix, old, new);
    }
}

// One route more.
pub fn add(pool: &mut [u32], capacity: usize, route: Route)
    requires fit { Fit ipv4 capacity pool.old }
    requires accepted { Accepted ipv4 capacity (call.add (route_of route)) pool.old }
    ensures { Does ipv4 capacity (call.add (route_of route)) pool.old pool.new }
{
    let prefix = route.prefix;
    let payload = route.payload;
    edit::put_in(pool, capacity, route);
    note(pool, capacity, Action::Added, prefix, payload, payload);
}

// One route less. Whose hand takes it out was asked before: what is done is the same.
pub fn delete(pool: &mut [u32], capacity: usize, by: Hand, prefix: Prefix)
    requires fit { Fit ipv4 capacity pool.old }
    requires accepted { Accepted ipv4 capacity (call.delete (hand_is by) (prefix_of prefix)) pool.old }
    ensures { Does ipv4 capacity (call.delete (hand_is by) (prefix_of prefix)) pool.old pool.new }
{
    let old = held_payload(pool, capacity, prefix);
    edit::take_out(pool, capacity, prefix);
    note(pool, capacity, Action::Deleted, prefix, old, old);
}

// Another hop, or another origin, for one route.
pub fn change(pool: &mut [u32], capacity: usize, route: Route)
    requires fit { Fit ipv4 capacity pool.old }
    requires accepted { Accepted ipv4 capacity (call.change (route_of route)) pool.old }
    ensures { Does ipv4 capacity (call.change (route_of route)) pool.old pool.new }
{
    let prefix = route.prefix;
    let payload = route.payload;
    let old = held_payload(pool, capacity, prefix);
    edit::swap(pool, capacity, route);
    note(pool, capacity, Action::Changed, prefix, old, payload);
}

// A trial opened: no change stands yet.
pub fn open(pool: &mut [u32], capacity: usize)
    requires fit { Fit ipv4 capacity pool.old }
    requires accepted { Accepted ipv4 capacity call.open_trial pool.old }
    ensures { Does ipv4 capacity call.open_trial pool.old pool.new }
{
    trial_rows::write_head(pool, true, 0);
}

// A trial kept: the routes stay, and nothing can be taken back any more.
pub fn keep(pool: &mut [u32], capacity: usize)
    requires fit { Fit ipv4 capacity pool.old }
    requires accepted { Accepted ipv4 capacity call.keep pool.old }
    ensures { Does ipv4 capacity call.keep pool.old pool.new }
{
    trial_rows::write_head(pool, false, 0);
}
