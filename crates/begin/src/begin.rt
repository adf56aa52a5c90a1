ghost use Rattle.std.specs.Prelude.{◌≡◌, length, replicate};
ghost use Rattle.route.specs.Answers.{answer_number};
ghost use Rattle.pool.specs.Ipv4.{ipv4};
ghost use Rattle.promise.specs.Promise.{FreshPromise};
ghost use Rattle.promise.specs.Trees.{tree};

use route::{Answer, Refusal};

// Every word is 0, so that nothing of what a lent buffer held before can be taken for a route, a mark or a change.
fn clear(pool: &mut [u32])
    ensures { pool.new ≡ replicate (length pool.old) 0 }
{
    pool.fill(0);
}

// An empty table in a lent buffer. It does not ask what the buffer held: it is the one call that makes a pool sound.
pub fn fresh(pool: &mut [u32], capacity: u32) -> Answer<()>
    ensures { FreshPromise (tree ipv4) capacity pool.old pool.new (answer_number result) }
{
    if capacity == 0 {
        return Err(Refusal::BadCapacity);
    }
    if pool::LIMIT < capacity {
        return Err(Refusal::BadCapacity);
    }
    let own = pool::size_of(capacity as usize);
    if pool.len() < own {
        return Err(Refusal::ShortBuffer);
    }
    clear(&mut pool[..own]);
    pool[pool::AT_CAPACITY] = capacity;
    Ok(())
}
