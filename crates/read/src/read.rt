ghost use Rattle.std.specs.Prelude.{◌≡◌, true, ◌↔◌, ℕ, List};
ghost use Rattle.model.specs.Call as call;
ghost use Rattle.route.specs.Means.{prefix_of};
ghost use Rattle.route.specs.Answers.{answer_number, found_value, room_value, measured_value};
ghost use Rattle.pool.specs.Ipv4.{ipv4};
ghost use Rattle.promise.specs.Trees.{tree};
ghost use Rattle.promise.specs.Table.{Sound};
ghost use Rattle.promise.specs.Promise.{Promise, LookupPromise};

use route::{Answer, Length, Prefix, Refusal, Route};
use verdict::{own_words, tested};

// Whether a pool is sound: yes exactly when it is.
pub fn sound(pool: &[u32]) -> bool
    ensures { (result ≡ true) ↔ Sound (tree ipv4) pool.now }
{
    tested(pool).is_ok()
}

// The route for a destination. It is the call made per packet, so it does not test the whole pool.
pub fn lookup(pool: &[u32], destination: u32) -> Answer<Route>
    ensures { LookupPromise (tree ipv4) destination pool.now (answer_number result) (found_value result) }
{
    let capacity = own_words(pool)?;
    let own = pool::size_of(capacity);
    climb::longest_match(&pool[..own], capacity, destination)
}

// The first route of the walk.
pub fn first(pool: &[u32]) -> Answer<Route>
    ensures { Promise (tree ipv4) call.first pool.now pool.now (answer_number result) (found_value result) }
{
    let capacity = tested(pool)?;
    let own = pool::size_of(capacity);
    walk::first(&pool[..own], capacity)
}

// The next route after a prefix, held or not.
pub fn next(pool: &[u32], prefix: Prefix) -> Answer<Route>
    ensures { Promise (tree ipv4) (call.after (prefix_of prefix)) pool.now pool.now (answer_number result) (found_value result) }
{
    let capacity = tested(pool)?;
    if !prefix.well_formed() {
        return Err(Refusal::BadPrefix);
    }
    let own = pool::size_of(capacity);
    walk::next(&pool[..own], capacity, prefix)
}

// How many routes the table still takes.
pub fn room_left(pool: &[u32]) -> Answer<u32>
    ensures { Promise (tree ipv4) call.room pool.now pool.now (answer_number result) (room_value result) }
{
    tested(pool)?;
    Ok(pool[pool::AT_CAPACITY] - pool[pool::AT_COUNT])
}

// The length of a mask. It is asked of no pool: whatever words there are, it leaves them.
pub fn mask_length(mask: u32) -> Answer<Length>
    ensures { (ws : List ℕ) → Promise (tree ipv4) (call.mask mask) ws ws (answer_number result) (measured_value result) }
{
    route::measure(mask)
}
