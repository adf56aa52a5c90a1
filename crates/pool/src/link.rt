ghost use Rattle.std.specs.Prelude.{◌≡◌, ◌≤◌};
ghost use Rattle.pool.specs.Link.{link_from, to_route, to_inner};

// A place in the pool: a route place, or an inner place.
#[derive(Clone, Copy, PartialEq, Eq)]
pub struct Place(pub usize);

// What a link leads to.
#[derive(Clone, Copy, PartialEq, Eq)]
pub enum Link {
    Route(Place),
    Inner(Place),
}

// What a word means as a link, which leads to nothing where the word is 0. Any word means something; whether the place is in the pool is
// for the caller to test.
#[tactic(auto, unfolding(crate::specs::Link::link_from))]
pub fn link_from(word: u32) -> Option<Link>
    ensures { result ≡ link_from word }
{
    let half = (word / 2) as usize;
    if word == 0 {
        return None;
    }
    if word % 2 == 1 {
        return Some(Link::Route(Place(half)));
    }
    Some(Link::Inner(Place(half - 1)))
}

// The word that links to a route place.
pub fn route_link(place: Place) -> u32
    requires { place.0 ≤ 65535 }
    ensures { result ≡ to_route place.0 }
{
    2 * (place.0 as u32) + 1
}

// The word that links to an inner place.
pub fn inner_link(place: Place) -> u32
    requires { place.0 ≤ 65535 }
    ensures { result ≡ to_inner place.0 }
{
    2 * (place.0 as u32) + 2
}
