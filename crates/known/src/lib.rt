// The changes in a pool that is known to be sound: judged, and carried out where they may be. A call that tests the pool, and a row
// of calls that tests it once, both come through here.
#![tactic(auto)]

ghost use Rattle.std.specs.Prelude.{Ok};
ghost use Rattle.model.specs.Call as call;
ghost use Rattle.route.specs.Means.{prefix_of, hand_is, route_of};
ghost use Rattle.route.specs.Answers.{answer_number};
ghost use Rattle.pool.specs.Ipv4.{ipv4};
ghost use Rattle.promise.specs.Promise.{Promise};
ghost use Rattle.promise.specs.Trees.{tree};
ghost use Rattle.verdict.specs.Own.{TestedRight};

use may::{judge_add, judge_change, judge_delete, judge_end, judge_open, judge_step_back};
use route::{Answer, Hand, Prefix, Route};

// One route more, fixed or learned as its origin says.
pub fn add(pool: &mut [u32], said: usize, route: Route) -> Answer<()>
    requires { TestedRight (tree ipv4) pool.old (Ok said) }
    ensures { Promise (tree ipv4) (call.add (route_of route)) pool.old pool.new (answer_number result) call.nothing }
{
    let capacity = judge_add(pool, said, route)?;
    let own = pool::size_of(capacity);
    apply::add(&mut pool[..own], capacity, route);
    Ok(())
}

// One route less, by the keeper's own hand or a learner's.
pub fn delete(pool: &mut [u32], said: usize, by: Hand, prefix: Prefix) -> Answer<()>
    requires { TestedRight (tree ipv4) pool.old (Ok said) }
    ensures { Promise (tree ipv4) (call.delete (hand_is by) (prefix_of prefix)) pool.old pool.new (answer_number result) call.nothing }
{
    let capacity = judge_delete(pool, said, by, prefix)?;
    let own = pool::size_of(capacity);
    apply::delete(&mut pool[..own], capacity, by, prefix);
    Ok(())
}

// Another hop for one route, and the origin that goes with it: a plain change makes it fixed.
pub fn change_hop(pool: &mut [u32], said: usize, route: Route) -> Answer<()>
    requires { TestedRight (tree ipv4) pool.old (Ok said) }
    ensures { Promise (tree ipv4) (call.change (route_of route)) pool.old pool.new (answer_number result) call.nothing }
{
    let capacity = judge_change(pool, said, route)?;
    let own = pool::size_of(capacity);
    apply::change(&mut pool[..own], capacity, route);
    Ok(())
}

// A trial opened: from here on the changes are recorded.
pub fn open_trial(pool: &mut [u32], said: usize) -> Answer<()>
    requires { TestedRight (tree ipv4) pool.old (Ok said) }
    ensures { Promise (tree ipv4) call.open_trial pool.old pool.new (answer_number result) call.nothing }
{
    let capacity = judge_open(pool, said)?;
    let own = pool::size_of(capacity);
    apply::open(&mut pool[..own], capacity);
    Ok(())
}

// A trial kept: its changes stay.
pub fn keep_trial(pool: &mut [u32], said: usize) -> Answer<()>
    requires { TestedRight (tree ipv4) pool.old (Ok said) }
    ensures { Promise (tree ipv4) call.keep pool.old pool.new (answer_number result) call.nothing }
{
    let capacity = judge_end(pool, said)?;
    let own = pool::size_of(capacity);
    apply::keep(&mut pool[..own], capacity);
    Ok(())
}

// All recorded changes taken back, newest first, and the trial closed. While a trial is open it is never refused.
pub fn back_out(pool: &mut [u32], said: usize) -> Answer<()>
    requires { TestedRight (tree ipv4) pool.old (Ok said) }
    ensures { Promise (tree ipv4) call.back_out pool.old pool.new (answer_number result) call.nothing }
{
    let capacity = judge_end(pool, said)?;
    let own = pool::size_of(capacity);
    undo::back_out(&mut pool[..own], capacity);
    Ok(())
}

// The newest recorded change taken back; the trial stays open.
pub fn step_back(pool: &mut [u32], said: usize) -> Answer<()>
    requires { TestedRight (tree ipv4) pool.old (Ok said) }
    ensures { Promise (tree ipv4) call.step_back pool.old pool.new (answer_number result) call.nothing }
{
    let capacity = judge_step_back(pool, said)?;
    let own = pool::size_of(capacity);
    undo::step_back(&mut pool[..own], capacity);
    Ok(())
}
