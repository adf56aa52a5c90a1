// The changes: each tests the pool once, and goes on in one that is known to be sound.
ghost use Rattle.model.specs.Call as call;
ghost use Rattle.route.specs.Means.{prefix_of, hand_is, route_of};
ghost use Rattle.route.specs.Answers.{answer_number};
ghost use Rattle.pool.specs.Ipv4.{ipv4};
ghost use Rattle.promise.specs.Promise.{Promise};
ghost use Rattle.promise.specs.Trees.{tree};

use route::{Answer, Hand, Prefix, Route};
use verdict::tested;

// One route more, fixed or learned as its origin says.
pub fn add(pool: &mut [u32], route: Route) -> Answer<()>
    ensures { Promise (tree ipv4) (call.add (route_of route)) pool.old pool.new (answer_number result) call.nothing }
{
    let capacity = tested(pool)?;
    known::add(pool, capacity, route)
}

// One route less, by the keeper's own hand or a learner's.
pub fn delete(pool: &mut [u32], by: Hand, prefix: Prefix) -> Answer<()>
    ensures { Promise (tree ipv4) (call.delete (hand_is by) (prefix_of prefix)) pool.old pool.new (answer_number result) call.nothing }
{
    let capacity = tested(pool)?;
    known::delete(pool, capacity, by, prefix)
}

// Another hop for one route, and the origin that goes with it: a plain change makes it fixed.
pub fn change_hop(pool: &mut [u32], route: Route) -> Answer<()>
    ensures { Promise (tree ipv4) (call.change (route_of route)) pool.old pool.new (answer_number result) call.nothing }
{
    let capacity = tested(pool)?;
    known::change_hop(pool, capacity, route)
}

// A trial opened: from here on the changes are recorded.
pub fn open_trial(pool: &mut [u32]) -> Answer<()>
    ensures { Promise (tree ipv4) call.open_trial pool.old pool.new (answer_number result) call.nothing }
{
    let capacity = tested(pool)?;
    known::open_trial(pool, capacity)
}

// A trial kept: its changes stay.
pub fn keep_trial(pool: &mut [u32]) -> Answer<()>
    ensures { Promise (tree ipv4) call.keep pool.old pool.new (answer_number result) call.nothing }
{
    let capacity = tested(pool)?;
    known::keep_trial(pool, capacity)
}

// All recorded changes taken back, newest first, and the trial closed. While a trial is open it is never refused.
pub fn back_out(pool: &mut [u32]) -> Answer<()>
    ensures { Promise (tree ipv4) call.back_out pool.old pool.new (answer_number result) call.nothing }
{
    let capacity = tested(pool)?;
    known::back_out(pool, capacity)
}

// The newest recorded change taken back; the trial stays open.
pub fn step_back(pool: &mut [u32]) -> Answer<()>
    ensures { Promise (tree ipv4) call.step_back pool.old pool.new (answer_number result) call.nothing }
{
    let capacity = tested(pool)?;
    known::step_back(pool, capacity)
}
