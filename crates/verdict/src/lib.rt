// What lent words are before anything is done to them: which capacity they say, and whether they are a sound pool.
#![tactic(auto)]

ghost use Rattle.pool.specs.Ipv4.{ipv4};
ghost use Rattle.promise.specs.Trees.{tree};
ghost use Rattle.verdict.specs.Own.{OwnRight, TestedRight};

use pool::Damage;

// The capacity that a pool says, where it is one that a table may have and the words are enough for it: what can be known before a word
// behind the first is read.
pub fn own_words(pool: &[u32]) -> Result<usize, Damage>
    ensures { OwnRight (tree ipv4) pool.now result }
{
    if pool.len() == 0 {
        return Err(Damage);
    }
    let said = pool[pool::AT_CAPACITY];
    if said == 0 {
        return Err(Damage);
    }
    if pool::LIMIT < said {
        return Err(Damage);
    }
    let capacity = said as usize;
    if pool.len() < pool::size_of(capacity) {
        return Err(Damage);
    }
    Ok(capacity)
}

// The capacity of a pool that is sound. The whole pool is tested before a change, a trial, a walk or the room.
pub fn tested(pool: &[u32]) -> Result<usize, Damage>
    ensures { TestedRight (tree ipv4) pool.now result }
{
    let capacity = own_words(pool)?;
    let own = pool::size_of(capacity);
    if audit::audit(&pool[..own], capacity) {
        Ok(capacity)
    } else {
        Err(Damage)
    }
}
