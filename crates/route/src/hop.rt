ghost use Rattle.std.specs.Prelude.{◌≡◌, ◌&&◌};
ghost use Rattle.model.specs.Ipv4.{good_hop, good_metric};
ghost use Rattle.route.specs.Means.{hop_of, payload_of};

use super::origin::Origin;
use super::prefix::Prefix;

// A port number.
#[derive(Clone, Copy, PartialEq, Eq)]
pub struct Port(pub u32);

// The last port that there is.
pub const LAST_PORT: u32 = 15;

// Where a route leads: straight out of a port, by a gateway behind a port, or nowhere.
#[derive(Clone, Copy, PartialEq, Eq)]
pub enum Hop {
    Direct(Port),
    Via(Port, u32),
    Reject,
}

impl Hop {
    // Ports run from 0 to 15, and gateway 0.0.0.0 is bad.
    #[tactic(auto, unfolding(model::specs::Ipv4::good_hop))]
    pub fn is_good(self) -> bool
        ensures { result ≡ good_hop (hop_of self) }
    {
        match self {
            Hop::Direct(port) => port.0 <= LAST_PORT,
            Hop::Via(port, gateway) => port.0 <= LAST_PORT && gateway != 0,
            Hop::Reject => true,
        }
    }
}

// What a route holds besides its prefix.
#[derive(Clone, Copy, PartialEq, Eq)]
pub struct Payload {
    pub hop: Hop,
    pub origin: Origin,
}

impl Payload {
    // Whether a route may hold it.
    pub fn is_good(self) -> bool
        ensures { result ≡ (good_hop (payload_of self).hop && good_metric (payload_of self).origin) }
    {
        self.hop.is_good() && self.origin.is_good()
    }
}

// Every route holds its hop, and where it came from.
#[derive(Clone, Copy, PartialEq, Eq)]
pub struct Route {
    pub prefix: Prefix,
    pub payload: Payload,
}
