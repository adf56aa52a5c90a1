// How a prefix, a hop, an origin and a route are written in document 01's listing.
ghost use Rattle.std.specs.Prelude.{Some};
ghost use Rattle.route.specs.Text.{prefix_text, hop_text, origin_text, route_text};

use super::hop::{Hop, Route};
use super::origin::Origin;
use super::prefix::Prefix;
use std::fmt;

impl fmt::Display for Prefix {
    ghost output = { λ p. Some (prefix_text p) };

    fn fmt<W: fmt::Write>(&self, f: &mut fmt::Formatter<W>) -> fmt::Result {
        let address = Address(self.address);
        let length = self.length.0;
        write!(f, "{address}/{length}")
    }
}

impl fmt::Display for Hop {
    ghost output = { λ h. Some (hop_text h) };

    fn fmt<W: fmt::Write>(&self, f: &mut fmt::Formatter<W>) -> fmt::Result {
        match *self {
            Hop::Direct(port) => {
                let port = port.0;
                write!(f, "direct {port}")
            }
            Hop::Via(port, gateway) => {
                let port = port.0;
                let gateway = Address(gateway);
                write!(f, "via {port} {gateway}")
            }
            Hop::Reject => write!(f, "reject"),
        }
    }
}

impl fmt::Display for Origin {
    ghost output = { λ o. Some (origin_text o) };

    fn fmt<W: fmt::Write>(&self, f: &mut fmt::Formatter<W>) -> fmt::Result {
        match *self {
            Origin::Fixed => write!(f, "fixed 0"),
            Origin::Learned(metric) => {
                let metric = metric.0;
                write!(f, "learned {metric}")
            }
        }
    }
}

impl fmt::Display for Route {
    ghost output = { λ r. Some (route_text r) };

    fn fmt<W: fmt::Write>(&self, f: &mut fmt::Formatter<W>) -> fmt::Result {
        let prefix = self.prefix;
        let hop = self.payload.hop;
        let origin = self.payload.origin;
        write!(f, "{prefix} {hop} {origin}")
    }
}

// An address: its four octets, the highest first.
#[derive(Clone, Copy)]
struct Address(u32);

impl fmt::Display for Address {
    ghost use Rattle.route.specs.Text.{address_text};

    ghost output = { λ a. Some (address_text a.0) };

    fn fmt<W: fmt::Write>(&self, f: &mut fmt::Formatter<W>) -> fmt::Result {
        let a = self.0 >> 24;
        let b = (self.0 >> 16) % 256;
        let c = (self.0 >> 8) % 256;
        let d = self.0 % 256;
        write!(f, "{a}.{b}.{c}.{d}")
    }
}
