ghost use Rattle.std.specs.Prelude.{◌≡◌, true, ◌↔◌, ◌+◌, ◌≤◌, ◌<◌, length};
ghost use Rattle.model.specs.Prefix.{Prefix};
ghost use Rattle.pool.specs.Ipv4.{ipv4};
ghost use Rattle.pool.specs.Fit.{Fit};
ghost use Rattle.standing.specs.Changes.{PayloadFine, ChangeFine, ChangesFine, ThereSays, TakenSays, BackSays};

use pool::Action;

// Whether the words here are a payload that the table may hold.
fn payload_is_good(pool: &[u32], at: usize) -> bool
    requires { at + 4 < length pool.now }
    ensures { (p : Prefix) → (result ≡ true) ↔ PayloadFine ipv4 pool.now p at }
{
    pool::payload_there(pool, at) && pool::payload_at(pool, at).is_good()
}

// Whether a slot records a change whose prefix and payloads the table may hold. A payload that its action does not use is not looked at.
fn change_is_good(pool: &[u32], capacity: usize, change: usize) -> bool
    requires fit { Fit ipv4 capacity pool.now }
    requires change_bound { change < 64 }
    ensures { (result ≡ true) ↔ ChangeFine ipv4 capacity pool.now change }
{
    let at = pool::slot(capacity, change);
    let prefix = pool::prefix_at(pool, at + pool::CHANGED_OFFSET);
    if !prefix.well_formed() || !prefix.may_be_held() {
        return false;
    }
    let old = at + pool::OLD_OFFSET;
    let new = at + pool::NEW_OFFSET;
    match Action::from_word(pool[at]) {
        Some(Action::Added) => payload_is_good(pool, new),
        Some(Action::Deleted) => payload_is_good(pool, old),
        Some(Action::Changed) => payload_is_good(pool, old) && payload_is_good(pool, new),
        None => false,
    }
}

// Whether all standing changes are good.
pub fn changes_are_good(pool: &[u32], capacity: usize, standing: usize) -> bool
    requires fit { Fit ipv4 capacity pool.now }
    requires standing_bound { standing ≤ 64 }
    ensures { (result ≡ true) ↔ ChangesFine ipv4 capacity pool.now standing }
{
    for change in 0..standing {
        if !change_is_good(pool, capacity, change) {
            return false;
        }
    }
    true
}

// Whether the prefix of a change is there when all newer changes are taken back: the nearest newer change of the same prefix
// says so, or else the table.
fn is_there(pool: &[u32], capacity: usize, standing: usize, change: usize) -> bool
    requires fit { Fit ipv4 capacity pool.now }
    requires standing_bound { (standing ≤ 64) × (change < standing) }
    ensures { ThereSays ipv4 capacity pool.now standing change result }
{
    let prefix = pool::prefix_at(pool, pool::slot(capacity, change) + pool::CHANGED_OFFSET);
    for newer in change + 1..standing {
        let at = pool::slot(capacity, newer);
        let other = pool::prefix_at(pool, at + pool::CHANGED_OFFSET);
        if prefix.is(other) {
            return pool[at] != Action::Added.word();
        }
    }
    matches!(search::find(pool, capacity, prefix), Ok(Some(_)))
}

// How many routes are left when one change is taken back, if it can be: an add or a hop change needs its prefix there, a delete needs it
// absent and room for one more.
fn take_back(
    pool: &[u32],
    capacity: usize,
    standing: usize,
    change: usize,
    held: usize,
) -> Option<usize>
    requires fit { Fit ipv4 capacity pool.now }
    requires standing_bound { (standing ≤ 64) × (change < standing) }
    requires held_le_capacity { held ≤ capacity }
    ensures { TakenSays ipv4 capacity pool.now standing change held result }
{
    let at = pool::slot(capacity, change);
    let there = is_there(pool, capacity, standing, change);
    match Action::from_word(pool[at]) {
        Some(Action::Added) => {
            if !there || held == 0 {
                return None;
            }
            Some(held - 1)
        }
        Some(Action::Deleted) => {
            if there || capacity <= held {
                return None;
            }
            Some(held + 1)
        }
        _ => {
            if !there {
                return None;
            }
            Some(held)
        }
    }
}

// Whether all standing changes could be taken back one by one, newest first.
pub fn can_take_back(pool: &[u32], capacity: usize, standing: usize, routes: usize) -> bool
    requires fit { Fit ipv4 capacity pool.now }
    requires standing_bound { (standing ≤ 64) × (routes ≤ capacity) }
    ensures { BackSays ipv4 capacity pool.now standing routes result }
{
    let mut held = routes;
    for change in (0..standing).rev() {
        let Some(left) = take_back(pool, capacity, standing, change, held) else {
            return false;
        };
        held = left;
    }
    true
}
