ghost use Rattle.model.specs.Routes.{insert, remove, replace};
ghost use Rattle.model.specs.Ipv4.{Payload};
ghost use Rattle.model.specs.State.{State};
ghost use Rattle.model.specs.Call.{with_trial};
ghost use Rattle.route.specs.Means.{prefix_of, route_of};
ghost use Rattle.pool.specs.Ipv4.{ipv4};
ghost use Rattle.pool.specs.Fit.{Fit};
ghost use Rattle.edit.specs.Encodes.{Encodes, ToPut, ToTake};

use enter_rows::{put_first, put_hung, put_joined};
use leave_rows::{swap_payload, take_last, take_leaf, take_link};
use places::{Sort, free};
use plan::{PutPlan, TakePlan, held_at, plan_put, plan_take};
use route::{Prefix, Route};

// A route more, where its prefix is not there and there is room.
pub fn put_in(pool: &mut [u32], capacity: usize, route: Route)
    requires fit { Fit ipv4 capacity pool.old }
    requires to_put { (s : State Payload) × ToPut ipv4 capacity pool.old (route_of route) s }
    ensures { (s : State Payload) → ToPut ipv4 capacity pool.old (route_of route) s → Encodes ipv4 pool.new (with_trial s (insert (route_of route) s.routes) s.trial) }
{
    let place = free(pool, capacity, Sort::Route);
    let prefix = route.prefix;
    match plan_put(pool, capacity, prefix) {
        PutPlan::First => {
            put_first(pool, place, route);
        }
        PutPlan::Hang(cell) => {
            put_hung(pool, place, route, cell);
        }
        PutPlan::Join(cell, index) => {
            let inner = free(pool, capacity, Sort::Inner);
            put_joined(pool, capacity, place, inner, route, cell, index);
        }
    }
}

// A route less.
pub fn take_out(pool: &mut [u32], capacity: usize, prefix: Prefix)
    requires fit { Fit ipv4 capacity pool.old }
    requires to_take { (s : State Payload) × ToTake ipv4 capacity pool.old (prefix_of prefix) s }
    ensures { (s : State Payload) → ToTake ipv4 capacity pool.old (prefix_of prefix) s → Encodes ipv4 pool.new (with_trial s (remove (prefix_of prefix) s.routes) s.trial) }
{
    match plan_take(pool, capacity, prefix) {
        Some(TakePlan::Link(cell, place)) => {
            take_link(pool, cell, place);
        }
        Some(TakePlan::Leaf(up, inner, link, place)) => {
            take_leaf(pool, capacity, up, inner, link, place);
        }
        Some(TakePlan::Last(place)) => {
            take_last(pool, place);
        }
        None => {}
    }
}

// Another hop for a route.
pub fn swap(pool: &mut [u32], capacity: usize, route: Route)
    requires fit { Fit ipv4 capacity pool.old }
    requires to_take { (s : State Payload) × ToTake ipv4 capacity pool.old (prefix_of route.prefix) s }
    ensures { (s : State Payload) → ToTake ipv4 capacity pool.old (prefix_of route.prefix) s → Encodes ipv4 pool.new (with_trial s (replace (route_of route) s.routes) s.trial) }
{
    let prefix = route.prefix;
    let payload = route.payload;
    if let Some(held) = held_at(pool, capacity, prefix) {
        swap_payload(pool, held.place, payload);
    }
}
