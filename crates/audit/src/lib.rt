// Whether the lent words are a sound pool: by reading only, and of any words whatever.
//
// It ends fast on hostile words too. On a way down the tree the tested bits grow, so it passes 32 inner places at most; along a
// chain the lengths fall, so it has 33 routes at most. A side that is fine has no place twice, so going through it takes no more
// steps than the pool has places, 2 C of them. A side that is not fine ends the walk, and two links to one subtree are not fine,
// since its addresses can't have both a 0 and a 1 at the bit. So the tree takes at most 33 sides that are fine and one way down,
// fewer than 70 C + 40 steps from place to place. The marks take 2 C steps and the changes 64. Taking the changes back takes at
// most 2,016 comparisons with a newer change and 64 searches of at most 65 steps.
#![tactic(auto)]

mod head;

ghost use Rattle.std.specs.Prelude.{◌≡◌, true, ◌↔◌};
ghost use Rattle.model.specs.Ipv4.{Payload};
ghost use Rattle.model.specs.State.{State};
ghost use Rattle.pool.specs.Ipv4.{ipv4};
ghost use Rattle.pool.specs.Means.{Means};
ghost use Rattle.pool.specs.Fit.{Fit};

use places::Sort;
use shape::Uses;

// Whether the words are a sound pool of this capacity.
pub fn audit(pool: &[u32], capacity: usize) -> bool
    requires { Fit ipv4 capacity pool.now }
    ensures { (result ≡ true) ↔ ((s : State Payload) × Means ipv4 pool.now s × (s.capacity ≡ capacity)) }
{
    if !head::head_is_good(pool, capacity) {
        return false;
    }
    let Some(Uses { routes, inners }) = shape::audit_root(pool, capacity) else {
        return false;
    };
    if pool[pool::AT_COUNT] as usize != routes {
        return false;
    }
    if places::used(pool, capacity, Sort::Route) != routes {
        return false;
    }
    if places::used(pool, capacity, Sort::Inner) != inners {
        return false;
    }
    let standing = pool[pool::AT_STANDING] as usize;
    if !standing::changes_are_good(pool, capacity, standing) {
        return false;
    }
    standing::can_take_back(pool, capacity, standing, routes)
}
