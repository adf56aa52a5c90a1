// The rows of words that a trial writes: its head and its records.
#![tactic(auto)]

ghost use Rattle.std.specs.Prelude.{◌≡◌, ◌-◌, ◌≤◌, ◌<◌, [], ◌∷◌, length, cond};
ghost use Rattle.route.specs.Means.{prefix_of, payload_of};
ghost use Rattle.pool.specs.Layout as layout;
ghost use Rattle.pool.specs.Write.{writes};
ghost use Rattle.pool.specs.Action.{action_word};
ghost use Rattle.pool.specs.Ipv4.{ipv4};
ghost use Rattle.rows.specs.Writes.{head_writes, record_writes};

use pool::Action;
use route::{Payload, Prefix};

// Whether a trial is open, and how many changes stand.
pub fn write_head(pool: &mut [u32], open: bool, standing: u32)
    requires { 4 < length pool.old }
    ensures { pool.new ≡ writes (head_writes (cond «open» 1 0) standing) pool.old }
{
    pool[pool::AT_TRIAL] = u32::from(open);
    pool[pool::AT_STANDING] = standing;
}

// The newest change no longer stands.
pub fn strike(pool: &mut [u32])
    requires { (4 < length pool.old) × (1 ≤ layout.standing_in pool.old) }
    ensures { pool.new ≡ writes ((4, layout.standing_in pool.old - 1) ∷ []) pool.old }
{
    let standing = pool[pool::AT_STANDING];
    pool[pool::AT_STANDING] = standing - 1;
}

// A change recorded behind those that stand.
pub fn record_change(
    pool: &mut [u32],
    capacity: usize,
    action: Action,
    prefix: Prefix,
    old: Payload,
    new: Payload,
)
    requires { (capacity ≤ 65535) × (layout.standing_in pool.old < 64) × (layout.size ipv4 capacity ≤ length pool.old) }
    ensures { pool.new ≡ writes (record_writes ipv4 capacity (layout.standing_in pool.old) (action_word action) (prefix_of prefix) (payload_of old) (payload_of new)) pool.old }
{
    let standing = pool[pool::AT_STANDING];
    let at = pool::slot(capacity, standing as usize);
    pool[at] = action.word();
    pool::write_prefix(pool, at + pool::CHANGED_OFFSET, prefix);
    pool::write_payload(pool, at + pool::OLD_OFFSET, old);
    pool::write_payload(pool, at + pool::NEW_OFFSET, new);
    pool[pool::AT_STANDING] = standing + 1;
}
