ghost use Rattle.std.specs.Prelude.{◌≡◌, true, ◌↔◌};
ghost use Rattle.pool.specs.Ipv4.{ipv4};
ghost use Rattle.pool.specs.Fit.{Fit};
ghost use Rattle.shape.specs.Chain.{RouteFine, HungSays, ChainSays};

use pool::{Link, Place};
use route::{Length, Prefix};

// One route of a chain that is good: the link to the next, and its length, below which the next must stay.
#[derive(Clone, Copy)]
pub struct Hung {
    pub link: u32,
    pub bound: Length,
}

// The routes of one address.
#[derive(Clone, Copy)]
pub struct Chain {
    pub address: u32,
    pub routes: usize,
}

// Whether a place holds a route that the table may hold.
fn route_is_good(pool: &[u32], capacity: usize, place: Place) -> bool
    requires { Fit ipv4 capacity pool.now }
    ensures { (result ≡ true) ↔ RouteFine ipv4 capacity pool.now place.0 }
{
    if capacity <= place.0 || !pool::payload_there(pool, pool::seat(place)) {
        return false;
    }
    let route = pool::route_at(pool, place);
    let prefix = route.prefix;
    prefix.well_formed() && prefix.may_be_held() && route.payload.is_good()
}

// The route that a link leads to, where it is a good one of this address that is shorter than the bound.
fn step(pool: &[u32], capacity: usize, link: u32, address: u32, bound: Length) -> Option<Hung>
    requires { Fit ipv4 capacity pool.now }
    ensures { HungSays ipv4 capacity pool.now link address bound.0 result }
{
    let Some(Link::Route(place)) = pool::link_from(link) else {
        return None;
    };
    if !route_is_good(pool, capacity, place) {
        return None;
    }
    let route = pool::route_at(pool, place);
    let prefix = route.prefix;
    if prefix.address != address {
        return None;
    }
    if bound.0 <= prefix.length.0 {
        return None;
    }
    Some(Hung {
        link: pool::next_at(pool, place),
        bound: prefix.length,
    })
}

// The routes that hang from a place on: one address, each good, longest first. Lengths fall, so there are 33 at most.
pub fn audit_chain(pool: &[u32], capacity: usize, place: Place) -> Option<Chain>
    requires { Fit ipv4 capacity pool.now }
    ensures { ChainSays ipv4 capacity pool.now place.0 result }
{
    if capacity <= place.0 {
        return None;
    }
    let address = pool::route_at(pool, place).prefix.address;
    let mut link = pool::route_link(place);
    let mut bound = Length(Prefix::WIDTH + 1);
    let mut routes: usize = 0;
    while link != 0 {
        let hung = step(pool, capacity, link, address, bound)?;
        link = hung.link;
        bound = hung.bound;
        routes += 1;
    }
    Some(Chain { address, routes })
}
