ghost use Rattle.std.specs.Prelude.{◌≡◌};
ghost use Rattle.model.specs.Masked.{masked_length};
ghost use Rattle.model.specs.Call as call;
ghost use Rattle.pool.specs.Ipv4.{ipv4};
ghost use Rattle.promise.specs.Table.{Sound};
ghost use Rattle.promise.specs.Trees.{tree};
ghost use Rattle.promise.specs.Promise.{Promise, LookupPromise};
ghost use Rattle.codes.specs.Codes.{prefix_in};
ghost use Rattle.codes.specs.Out.{Out};
ghost use Rattle.exports.specs.Owed.{YesNo, MaskPromise};

use codes::{length_word, one_word, show, words_of};
use route::{Length, Prefix};

// 1 for a sound pool, 0 for any other.
#[unsafe(no_mangle)]
pub extern "C" fn rishavand_sound(pool: &[u32]) -> u32
    ensures { YesNo result (Sound (tree ipv4) pool.now) }
{
    u32::from(table::sound(pool))
}

#[unsafe(no_mangle)]
pub extern "C" fn rishavand_lookup(pool: &[u32], destination: u32, route: &mut [u32; 7]) -> u32
    ensures { Out (LookupPromise (tree ipv4) destination pool.now) result route.old route.new }
{
    show(table::lookup(pool, destination).map(words_of), route)
}

#[unsafe(no_mangle)]
pub extern "C" fn rishavand_first(pool: &[u32], route: &mut [u32; 7]) -> u32
    ensures { Out (Promise (tree ipv4) call.first pool.now pool.now) result route.old route.new }
{
    show(table::first(pool).map(words_of), route)
}

#[unsafe(no_mangle)]
pub extern "C" fn rishavand_next(
    pool: &[u32],
    address: u32,
    length: u32,
    route: &mut [u32; 7],
) -> u32
    ensures { Out (Promise (tree ipv4) (call.after (prefix_in address length)) pool.now pool.now) result route.old route.new }
{
    let prefix = Prefix::new(address, Length(length));
    show(table::next(pool, prefix).map(words_of), route)
}

#[unsafe(no_mangle)]
pub extern "C" fn rishavand_room(pool: &[u32], room: &mut [u32; 1]) -> u32
    ensures { Out (Promise (tree ipv4) call.room pool.now pool.now) result room.old room.new }
{
    show(table::room_left(pool).map(one_word), room)
}

#[unsafe(no_mangle)]
pub extern "C" fn rishavand_mask_length(mask: u32, length: &mut [u32; 1]) -> u32
    ensures { Out (MaskPromise (tree ipv4) mask) result length.old length.new }
{
    show(table::mask_length(mask).map(length_word), length)
}

// The length to pass with a mask: where the mask has a hole, one that no call takes, so that each answers 3 at its place.
#[unsafe(no_mangle)]
pub extern "C" fn rishavand_masked(mask: u32) -> u32
    ensures { result ≡ masked_length 32 mask }
{
    Length::of_mask(mask).0
}
