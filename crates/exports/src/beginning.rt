ghost use Rattle.std.specs.Prelude.{◌≡◌};
ghost use Rattle.pool.specs.Ipv4.{ipv4};
ghost use Rattle.promise.specs.Promise.{FreshPromise};
ghost use Rattle.promise.specs.Trees.{tree};
ghost use Rattle.codes.specs.Codes.{words_for};

// How many words a fresh table of a capacity needs, so that the owner can lend them; 0 for a capacity that `fresh` refuses.
#[unsafe(no_mangle)]
pub extern "C" fn rishavand_words(capacity: u32) -> usize
    ensures { result ≡ words_for capacity }
{
    match capacity {
        1..=pool::LIMIT => pool::size_of(capacity as usize),
        _ => 0,
    }
}

#[unsafe(no_mangle)]
pub extern "C" fn rishavand_fresh(pool: &mut [u32], capacity: u32) -> u32
    ensures { FreshPromise (tree ipv4) capacity pool.old pool.new result }
{
    route::number(table::fresh(pool, capacity))
}
