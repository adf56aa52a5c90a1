// How the C interface says a hop, an origin and a route in numbers, and how an answer goes out.
#![tactic(auto)]

ghost use Rattle.std.specs.Prelude.{◌≡◌, [], ◌∷◌};
ghost use Rattle.route.specs.Means.{hop_of, origin_of, route_of};
ghost use Rattle.codes.specs.Codes.{hop_in, route_in, hop_words, origin_words, route_words};
ghost use Rattle.codes.specs.Out.{GoesOut};

use route::{Answer, Hop, Length, Origin, Payload, Port, Prefix, Route};

// A port that there is not. A kind above 2 is no hop, and the table must say so at its place among the numbers: after 9 and 3.
// So it goes down as a hop that no table takes, and the table answers 4 by itself.
const NO_PORT: u32 = 16;

// The hop of a kind: 0 direct, 1 via, 2 reject. What the kind does not use is not looked at.
fn hop_from(kind: u32, port: u32, gateway: u32) -> Hop
    ensures { hop_of result ≡ hop_in kind port gateway }
{
    match kind {
        0 => Hop::Direct(Port(port)),
        1 => Hop::Via(Port(port), gateway),
        2 => Hop::Reject,
        _ => Hop::Direct(Port(NO_PORT)),
    }
}

// The route that five numbers say, of this origin.
pub fn route_from(
    address: u32,
    length: u32,
    kind: u32,
    port: u32,
    gateway: u32,
    origin: Origin,
) -> Route
    ensures { route_of result ≡ route_in address length kind port gateway (origin_of origin) }
{
    Route {
        prefix: Prefix::new(address, Length(length)),
        payload: Payload {
            hop: hop_from(kind, port, gateway),
            origin,
        },
    }
}

// A hop in words. What its kind does not use is 0, so that equal hops have equal words.
#[derive(Clone, Copy)]
struct HopWords {
    kind: u32,
    port: u32,
    gateway: u32,
}

fn hop_words(hop: Hop) -> HopWords
    ensures { result.kind ∷ result.port ∷ result.gateway ∷ [] ≡ hop_words (hop_of hop) }
{
    match hop {
        Hop::Direct(port) => HopWords {
            kind: 0,
            port: port.0,
            gateway: 0,
        },
        Hop::Via(port, gateway) => HopWords {
            kind: 1,
            port: port.0,
            gateway,
        },
        Hop::Reject => HopWords {
            kind: 2,
            port: 0,
            gateway: 0,
        },
    }
}

// An origin in words: 0 fixed, 1 learned; and the metric, 0 where there is none.
#[derive(Clone, Copy)]
struct OriginWords {
    origin: u32,
    metric: u32,
}

fn origin_words(origin: Origin) -> OriginWords
    ensures { result.origin ∷ result.metric ∷ [] ≡ origin_words (origin_of origin) }
{
    match origin {
        Origin::Fixed => OriginWords {
            origin: 0,
            metric: 0,
        },
        Origin::Learned(metric) => OriginWords {
            origin: 1,
            metric: metric.0,
        },
    }
}

// The seven words of a route.
pub fn words_of(route: Route) -> [u32; 7]
    ensures { result ≡ route_words (route_of route) }
{
    let leads = hop_words(route.payload.hop);
    let from = origin_words(route.payload.origin);
    [
        route.prefix.address,
        route.prefix.length.0,
        leads.kind,
        leads.port,
        leads.gateway,
        from.origin,
        from.metric,
    ]
}

// A number as the one word that goes out.
pub fn one_word(n: u32) -> [u32; 1]
    ensures { result ≡ n ∷ [] }
{
    [n]
}

// A length as the one word that goes out.
pub fn length_word(length: Length) -> [u32; 1]
    ensures { result ≡ length.0 ∷ [] }
{
    one_word(length.0)
}

// The number of an answer. Its words, if it has any, go out.
pub fn show<const N: usize>(answer: Answer<[u32; N]>, out: &mut [u32; N]) -> u32
    ensures { GoesOut answer.entry result out.old out.new }
{
    let Ok(words) = answer else {
        return route::number(answer);
    };
    *out = words;
    0
}
