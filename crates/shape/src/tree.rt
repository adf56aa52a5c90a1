ghost use Rattle.std.specs.Prelude.{ℕ, ◌≤◌};
ghost use Rattle.pool.specs.Ipv4.{ipv4};
ghost use Rattle.pool.specs.Link.{to_route};
ghost use Rattle.pool.specs.Fit.{Fit};
ghost use Rattle.shape.specs.Tree.{TreeSays, JoinSays, RootSays};

use super::chain::audit_chain;
use pool::{Link, Place};
use route::Prefix;

// A tree's lowest and highest address, and how many places it takes.
#[derive(Clone, Copy)]
pub struct Span {
    pub least: u32,
    pub greatest: u32,
    pub routes: usize,
    pub inners: usize,
}

// How many places the tree at the root takes.
#[derive(Clone, Copy)]
pub struct Uses {
    pub routes: usize,
    pub inners: usize,
}

// A leaf.
fn audit_leaf(pool: &[u32], capacity: usize, place: Place) -> Option<Span>
    requires { Fit ipv4 capacity pool.now }
    ensures { (low : ℕ) → TreeSays ipv4 capacity pool.now (to_route place.0) low result }
{
    let chain = audit_chain(pool, capacity, place)?;
    Some(Span {
        least: chain.address,
        greatest: chain.address,
        routes: chain.routes,
        inners: 0,
    })
}

// The two sides of a node. Addresses rise from left to right, so the two ends of a side tell whether all of it has the same first bits.
fn join(left: Span, right: Span, mark: u32) -> Option<Span>
    requires mark_bound { mark ≤ 32 }
    requires routes_bound { (left.routes ≤ 65535) × (right.routes ≤ 65535) }
    requires inners_bound { (left.inners ≤ 65535) × (right.inners ≤ 65535) }
    ensures { JoinSays ipv4 mark left right result }
{
    let zero = bits::first_bits(left.least, mark);
    if zero % 2 != 0 {
        return None;
    }
    if bits::first_bits(left.greatest, mark) != zero {
        return None;
    }
    let one = zero + 1;
    if bits::first_bits(right.least, mark) != one {
        return None;
    }
    if bits::first_bits(right.greatest, mark) != one {
        return None;
    }
    Some(Span {
        least: left.least,
        greatest: right.greatest,
        routes: left.routes + right.routes,
        inners: 1 + (left.inners + right.inners),
    })
}

// The tree at a link, which tests no bit before low. Bits grow on the way down, so no way is longer than 33 - low.
fn audit_tree(pool: &[u32], capacity: usize, link: u32, low: u32) -> Option<Span>
    requires fit { Fit ipv4 capacity pool.now }
    requires low_bound { low ≤ 32 }
    ensures { TreeSays ipv4 capacity pool.now link low result }
{
    match pool::link_from(link)? {
        Link::Route(place) => audit_leaf(pool, capacity, place),
        Link::Inner(place) => {
            if capacity <= place.0 {
                return None;
            }
            let mark = pool::mark_at(pool, capacity, place);
            if mark <= low {
                return None;
            }
            if Prefix::WIDTH < mark {
                return None;
            }
            let left = audit_tree(pool, capacity, pool::left_at(pool, capacity, place), mark)?;
            let right = audit_tree(pool, capacity, pool::right_at(pool, capacity, place), mark)?;
            join(left, right, mark)
        }
    }
}

// The whole tree.
pub fn audit_root(pool: &[u32], capacity: usize) -> Option<Uses>
    requires { Fit ipv4 capacity pool.now }
    ensures { RootSays ipv4 capacity pool.now result }
{
    let root = pool[pool::AT_ROOT];
    if root == 0 {
        return Some(Uses {
            routes: 0,
            inners: 0,
        });
    }
    let span = audit_tree(pool, capacity, root, 0)?;
    Some(Uses {
        routes: span.routes,
        inners: span.inners,
    })
}
