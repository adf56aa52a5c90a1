ghost use Rattle.std.specs.Prelude.{◌≡◌};
ghost use Rattle.model.specs.Ipv4 as ipv4;
ghost use Rattle.model.specs.State.{Meaning};
ghost use Rattle.model.specs.Call as call;
ghost use Rattle.model.specs.Call.{number};
ghost use Rattle.route.specs.Answers.{answer_number};
ghost use Rattle.pool.specs.Ipv4.{ipv4 as words4};
ghost use Rattle.promise.specs.Promise.{Meant};
ghost use Rattle.promise.specs.Trees.{tree};

use super::line::line;
use route::Answer;
use std::io::Write;

// The words of a pool of the largest capacity, and 16 past it.
pub type Words = [u32; pool::MOST_WORDS + 16];

// The routes in walk order. There are no more than the largest capacity, which is what ends the loop for the proof.
fn walk<W: Write>(out: &mut W, words: &Words) {
    let mut at = table::first(words);
    for _ in 0..pool::LIMIT {
        let Ok(route) = at else {
            return;
        };
        line(out, &route);
        at = table::next(words, route.prefix);
    }
}

// Document 01's listing, or the number of the refusal, which is answered too. A sound pool has its capacity and its count of
// routes in its first two words.
pub fn list<W: Write>(out: &mut W, words: &Words) -> Answer<u32>
    ensures { (m : Meaning ipv4.Payload) → Meant (tree words4) words.now m → answer_number result ≡ number words4.rules call.room m }
{
    let room = table::room_left(words);
    match room {
        Ok(_) => {
            let count = words[pool::AT_COUNT];
            let capacity = words[pool::AT_CAPACITY];
            line(out, &format_args!("routes {count} of {capacity}"));
            walk(out, words);
        }
        Err(refusal) => {
            line(out, &refusal.number());
        }
    }
    room
}
