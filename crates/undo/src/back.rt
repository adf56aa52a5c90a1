ghost use Rattle.model.specs.Ipv4.{Payload};
ghost use Rattle.model.specs.State.{State};
ghost use Rattle.model.specs.Call as call;
ghost use Rattle.pool.specs.Ipv4.{ipv4};
ghost use Rattle.pool.specs.Fit.{Fit};
ghost use Rattle.edit.specs.Encodes.{Encodes};
ghost use Rattle.apply.specs.Does.{Accepts, Accepted, Does};

use pool::Action;
use route::Route;

// The newest recorded change undone in the table; its record still stands.
fn take_back(pool: &mut [u32], capacity: usize)
    requires fit { Fit ipv4 capacity pool.old }
    requires accepted { Accepted ipv4 capacity call.step_back pool.old }
    ensures { (s : State Payload) → Accepts ipv4 capacity call.step_back pool.old s → Encodes ipv4 pool.new (call.with_trial s (call.stepped_back s s.trial).routes s.trial) }
{
    let newest = pool[pool::AT_STANDING] - 1;
    let at = pool::slot(capacity, newest as usize);
    let prefix = pool::prefix_at(pool, at + pool::CHANGED_OFFSET);
    let payload = pool::payload_at(pool, at + pool::OLD_OFFSET);
    let action = Action::from_word(pool[at]);
    match action {
        Some(Action::Added) => edit::take_out(pool, capacity, prefix),
        Some(Action::Deleted) => edit::put_in(pool, capacity, Route { prefix, payload }),
        Some(Action::Changed) => edit::swap(pool, capacity, Route { prefix, payload }),
        // A sound pool records nothing else.
        None => {}
    }
}

// Take back the newest recorded change; the trial stays open.
pub fn step_back(pool: &mut [u32], capacity: usize)
    requires fit { Fit ipv4 capacity pool.old }
    requires accepted { Accepted ipv4 capacity call.step_back pool.old }
    ensures { Does ipv4 capacity call.step_back pool.old pool.new }
{
    take_back(pool, capacity);
    trial_rows::strike(pool);
}

// Take back all of them, newest first, and close the trial.
pub fn back_out(pool: &mut [u32], capacity: usize)
    requires fit { Fit ipv4 capacity pool.old }
    requires accepted { Accepted ipv4 capacity call.back_out pool.old }
    ensures { Does ipv4 capacity call.back_out pool.old pool.new }
{
    while pool[pool::AT_STANDING] != 0 {
        step_back(pool, capacity);
    }
    trial_rows::write_head(pool, false, 0);
}
