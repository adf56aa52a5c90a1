// A run of the public calls that a reader can follow: what the theorems about runs say of it is a list that is known.
#![tactic(auto)]

ghost use Rattle.std.specs.Prelude.{◌≤◌, ◌≡◌, true, length};
ghost use Rattle.model.specs.Ipv4 as model;
ghost use Rattle.model.specs.State.{State};
ghost use Rattle.pool.specs.Layout.{size};
ghost use Rattle.pool.specs.Ipv4.{ipv4};
ghost use Rattle.pool.specs.Means.{Means};
ghost use Rattle.promise.specs.Run.{Ran};
ghost use Rattle.promise.specs.Trees.{tree};
ghost use Rattle.rehearsal.specs.Transcript.{transcript, left};

use route::{Hand, Hop, Length, Metric, Origin, Payload, Port, Prefix, Route};

// Routes B, J and K of the bsdi table, J as a learned one, and two of their prefixes by another port.
const B: Route = Route {
    prefix: Prefix {
        address: 0x7F000000,
        length: Length(8),
    },
    payload: Payload {
        hop: Hop::Reject,
        origin: Origin::Fixed,
    },
};

const J3: Route = Route {
    prefix: Prefix {
        address: 0xE0000000,
        length: Length(8),
    },
    payload: Payload {
        hop: Hop::Direct(Port(0)),
        origin: Origin::Learned(Metric(3)),
    },
};

const K: Route = Route {
    prefix: Prefix {
        address: 0xE0000001,
        length: Length(32),
    },
    payload: Payload {
        hop: Hop::Direct(Port(0)),
        origin: Origin::Fixed,
    },
};

const B1: Route = Route {
    prefix: Prefix {
        address: 0x7F000000,
        length: Length(8),
    },
    payload: Payload {
        hop: Hop::Direct(Port(1)),
        origin: Origin::Fixed,
    },
};

const J5: Route = Route {
    prefix: Prefix {
        address: 0xE0000000,
        length: Length(8),
    },
    payload: Payload {
        hop: Hop::Direct(Port(5)),
        origin: Origin::Fixed,
    },
};

// Two routes are added, one of them learned, and one prefix again; a learner may not delete the other; a trial is changed, stepped back and kept; another is backed out of. It says
// whether the buffer was long enough to begin.
pub fn rehearse(pool: &mut [u32]) -> bool
    ensures value { size ipv4 3 ≤ length pool.old → result ≡ true }
    ensures ran { result ≡ true → Ran (tree ipv4) (transcript (length pool.old)) pool.new }
    ensures routes_value { result ≡ true → (s : State model.Payload) → Means ipv4 pool.new s → s.routes ≡ left }
{
    if table::fresh(pool, 3).is_err() {
        return false;
    }
    let _ = table::add(pool, B);
    let _ = table::add(pool, J3);
    let _ = table::delete(pool, Hand::Learner, B.prefix);
    let _ = table::add(pool, B1);
    let _ = table::lookup(pool, 0x7F000002);
    let _ = table::open_trial(pool);
    let _ = table::add(pool, K);
    let _ = table::delete(pool, Hand::Plain, B.prefix);
    let _ = table::change_hop(pool, J5);
    let _ = table::step_back(pool);
    let _ = table::keep_trial(pool);
    let _ = table::open_trial(pool);
    let _ = table::delete(pool, Hand::Plain, K.prefix);
    let _ = table::back_out(pool);
    true
}
