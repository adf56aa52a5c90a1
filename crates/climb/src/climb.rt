ghost use Rattle.route.specs.Answers.{answer_number, found_value};
ghost use Rattle.pool.specs.Ipv4.{ipv4};
ghost use Rattle.pool.specs.Fit.{Fit};
ghost use Rattle.search.specs.Down.{Ways, EndsAt};
ghost use Rattle.climb.specs.Climb.{Climbs, Looks};

use pool::Place;
use route::{Answer, Refusal, Route};
use search::{Side, Way, ascend, down, follow, leftmost};

// From a leaf up: the first route of it that matches, or of the leftmost leaf of a left side that the way passed by.
fn climb(pool: &[u32], capacity: usize, way: Way, leaf: Place, destination: u32) -> Answer<Route>
    requires fit { Fit ipv4 capacity pool.now }
    requires ways { Ways ipv4 capacity pool.now destination way.inner way.depth way.end × EndsAt way.end leaf }
    ensures { Climbs ipv4 capacity pool.now destination (answer_number result) (found_value result) }
{
    let inner = way.inner;
    let mut level = way.depth;
    let mut first = leaf;
    'climb: loop {
        let mut place = first;
        loop {
            let route = pool::route_at(pool, place);
            if route.prefix.matches(destination) {
                break 'climb Ok(route);
            }
            match follow(pool, capacity, place, route.prefix.length)? {
                Some(next) => {
                    place = next;
                }
                None => break,
            }
        }
        let below = ascend(pool, capacity, &inner, level, destination, Side::Right);
        level = below.ok_or(Refusal::NoMatch)?;
        let passed = Place(inner[level]);
        first = leftmost(pool, capacity, pool::left_at(pool, capacity, passed))?;
    }
}

// The longest match.
pub fn longest_match(pool: &[u32], capacity: usize, destination: u32) -> Answer<Route>
    requires { Fit ipv4 capacity pool.now }
    ensures { Looks ipv4 capacity pool.now destination (answer_number result) (found_value result) }
{
    let way = down(pool, capacity, destination);
    match way.end? {
        Some(leaf) => climb(pool, capacity, way, leaf, destination),
        None => Err(Refusal::NoMatch),
    }
}
