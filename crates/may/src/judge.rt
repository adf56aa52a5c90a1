ghost use Rattle.std.specs.Prelude.{◌<◌, length, eqb, Ok};
ghost use Rattle.model.specs.Routes.{holds, find};
ghost use Rattle.model.specs.State as state;
ghost use Rattle.model.specs.Call as call;
ghost use Rattle.route.specs.Means.{prefix_of, hand_is, route_of};
ghost use Rattle.pool.specs.Ipv4.{ipv4};
ghost use Rattle.pool.specs.Fit.{Fit};
ghost use Rattle.promise.specs.Trees.{tree};
ghost use Rattle.verdict.specs.Own.{TestedRight};
ghost use Rattle.may.specs.May.{MayRight, Tells, TellsGuarded};

use route::{Answer, Hand, Prefix, Refusal, Route};

// Whether a prefix is held.
fn holds(pool: &[u32], capacity: usize, prefix: Prefix) -> bool
    requires { TestedRight (tree ipv4) pool.now (Ok capacity) }
    ensures { Tells (tree ipv4) pool.now (λ s. holds (prefix_of prefix) s.routes) result }
{
    let own = pool::size_of(capacity);
    matches!(search::find(&pool[..own], capacity, prefix), Ok(Some(_)))
}

// Whether the route of this prefix, if it is held, is guarded from that hand, in the pool's own words.
fn guarded_in(own: &[u32], capacity: usize, by: Hand, prefix: Prefix) -> bool
    requires { Fit ipv4 capacity own.now }
    ensures { TellsGuarded ipv4 capacity own.now (hand_is by) (prefix_of prefix) result }
{
    match search::find(own, capacity, prefix) {
        Ok(Some(place)) => {
            let payload = pool::payload_at(own, pool::seat(place));
            payload.origin.hand().guards(by)
        }
        Ok(None) => false,
        Err(_) => false,
    }
}

// The same in a lent pool.
fn guarded(pool: &[u32], capacity: usize, by: Hand, prefix: Prefix) -> bool
    requires { TestedRight (tree ipv4) pool.now (Ok capacity) }
    ensures { Tells (tree ipv4) pool.now (λ s. call.guarded ipv4.rules (hand_is by) (find (prefix_of prefix) s.routes)) result }
{
    let own = pool::size_of(capacity);
    guarded_in(&pool[..own], capacity, by, prefix)
}

// Whether a trial is open.
fn trial_open(pool: &[u32]) -> bool
    requires { 4 < length pool.now }
    ensures { Tells (tree ipv4) pool.now (λ s. state.is_open s.trial) result }
{
    pool[pool::AT_TRIAL] == 1
}

// Whether no further change can be recorded in the trial that is open.
fn trial_full(pool: &[u32]) -> bool
    requires { 4 < length pool.now }
    ensures { Tells (tree ipv4) pool.now (call.trial_full ipv4.rules) result }
{
    pool[pool::AT_STANDING] as usize == pool::CHANGES
}

// Whether no change stands.
fn none_stands(pool: &[u32]) -> bool
    requires { 4 < length pool.now }
    ensures { Tells (tree ipv4) pool.now (λ s. eqb (length (state.changes s.trial)) 0) result }
{
    pool[pool::AT_STANDING] == 0
}

// Whether the table holds as many routes as it may.
fn table_full(pool: &[u32]) -> bool
    requires { 4 < length pool.now }
    ensures { Tells (tree ipv4) pool.now state.full result }
{
    pool[pool::AT_COUNT] == pool[pool::AT_CAPACITY]
}

// 3, 4, 16, 5, 8, 7.
pub fn judge_add(pool: &[u32], capacity: usize, route: Route) -> Answer<usize>
    requires { TestedRight (tree ipv4) pool.now (Ok capacity) }
    ensures { MayRight (tree ipv4) (call.add (route_of route)) pool.now result }
{
    let prefix = route.prefix;
    let hop = route.payload.hop;
    let origin = route.payload.origin;
    if !prefix.well_formed() {
        return Err(Refusal::BadPrefix);
    }
    if !prefix.may_be_held() {
        return Err(Refusal::BadPrefix);
    }
    if !hop.is_good() {
        return Err(Refusal::BadHop);
    }
    if !origin.is_good() {
        return Err(Refusal::BadMetric);
    }
    if holds(pool, capacity, prefix) {
        return Err(Refusal::AlreadyThere);
    }
    if trial_full(pool) {
        return Err(Refusal::TrialFull);
    }
    if table_full(pool) {
        return Err(Refusal::TableFull);
    }
    Ok(capacity)
}

// 3, 6, 15, 8.
pub fn judge_delete(pool: &[u32], capacity: usize, by: Hand, prefix: Prefix) -> Answer<usize>
    requires { TestedRight (tree ipv4) pool.now (Ok capacity) }
    ensures { MayRight (tree ipv4) (call.delete (hand_is by) (prefix_of prefix)) pool.now result }
{
    if !prefix.well_formed() {
        return Err(Refusal::BadPrefix);
    }
    if !holds(pool, capacity, prefix) {
        return Err(Refusal::NotThere);
    }
    if guarded(pool, capacity, by, prefix) {
        return Err(Refusal::RouteIsFixed);
    }
    if trial_full(pool) {
        return Err(Refusal::TrialFull);
    }
    Ok(capacity)
}

// 3, 4, 16, 6, 15, 8.
pub fn judge_change(pool: &[u32], capacity: usize, route: Route) -> Answer<usize>
    requires { TestedRight (tree ipv4) pool.now (Ok capacity) }
    ensures { MayRight (tree ipv4) (call.change (route_of route)) pool.now result }
{
    let prefix = route.prefix;
    let hop = route.payload.hop;
    let origin = route.payload.origin;
    if !prefix.well_formed() {
        return Err(Refusal::BadPrefix);
    }
    if !hop.is_good() {
        return Err(Refusal::BadHop);
    }
    if !origin.is_good() {
        return Err(Refusal::BadMetric);
    }
    if !holds(pool, capacity, prefix) {
        return Err(Refusal::NotThere);
    }
    if guarded(pool, capacity, origin.hand(), prefix) {
        return Err(Refusal::RouteIsFixed);
    }
    if trial_full(pool) {
        return Err(Refusal::TrialFull);
    }
    Ok(capacity)
}

// 10.
pub fn judge_open(pool: &[u32], capacity: usize) -> Answer<usize>
    requires { TestedRight (tree ipv4) pool.now (Ok capacity) }
    ensures { MayRight (tree ipv4) call.open_trial pool.now result }
{
    if trial_open(pool) {
        return Err(Refusal::TrialIsOpen);
    }
    Ok(capacity)
}

// 11: to keep a trial and to back out of it.
pub fn judge_end(pool: &[u32], capacity: usize) -> Answer<usize>
    requires { TestedRight (tree ipv4) pool.now (Ok capacity) }
    ensures may_keep { MayRight (tree ipv4) call.keep pool.now result }
    ensures may_back_out { MayRight (tree ipv4) call.back_out pool.now result }
{
    if !trial_open(pool) {
        return Err(Refusal::NoTrial);
    }
    Ok(capacity)
}

// 11, 12.
pub fn judge_step_back(pool: &[u32], capacity: usize) -> Answer<usize>
    requires { TestedRight (tree ipv4) pool.now (Ok capacity) }
    ensures { MayRight (tree ipv4) call.step_back pool.now result }
{
    if !trial_open(pool) {
        return Err(Refusal::NoTrial);
    }
    if none_stands(pool) {
        return Err(Refusal::NothingStanding);
    }
    Ok(capacity)
}
