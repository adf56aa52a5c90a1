// The words of a line that stand for a prefix, a hop, an origin or a route, each passed as it is read. What a word is, and which number
// or address it says, is promised in `numeral`. Which words make which of them is not promised here: stated in a contract, that grammar
// would be this code again. The second program, written apart from it, is held to it.
use numeral::{Fault, Line, address, decimal, find};
use route::{Hop, Length, Metric, Origin, Payload, Port, Prefix, Route};

// The next word, which must be there.
fn word<'a>(line: &mut Line<'a>) -> Result<&'a [u8], Fault> {
    let word = line.word();
    if word.is_empty() {
        return Err(Fault::TooFewWords);
    }
    line.skip();
    Ok(word)
}

// Whether the next word is the one wanted, which is then passed. Another is left for what reads on. It has no promise, as said above.
pub(crate) fn passes(line: &mut Line, wanted: &[u8]) -> bool {
    let is_wanted = line.word() == wanted;
    if is_wanted {
        line.skip();
    }
    is_wanted
}

// An address, and behind it the word mask and the mask.
fn with_mask(text: &[u8], line: &mut Line) -> Result<Prefix, Fault> {
    if !passes(line, b"mask") {
        return Err(Fault::BadPrefix);
    }
    let bits = address(text).ok_or(Fault::BadAddress)?;
    Ok(Prefix::with_mask(bits, line.address()?))
}

// A prefix is a word with a slash between an address and a length, or an address with a mask behind it. It has no promise, as said above.
pub(crate) fn prefix(line: &mut Line) -> Result<Prefix, Fault> {
    let text = word(line)?;
    let slash = find(text, 0, b'/');
    if slash == text.len() {
        return with_mask(text, line);
    }
    let bits = address(&text[..slash]).ok_or(Fault::BadAddress)?;
    let length = decimal(&text[slash + 1..]).ok_or(Fault::BadNumber)?;
    Ok(Prefix::new(bits, Length(length)))
}

fn hop(line: &mut Line) -> Result<Hop, Fault> {
    match word(line)? {
        b"direct" => Ok(Hop::Direct(Port(line.number()?))),
        b"via" => Ok(Hop::Via(Port(line.number()?), line.address()?)),
        b"reject" => Ok(Hop::Reject),
        _ => Err(Fault::BadHop),
    }
}

// The word learned and a metric; a route that has none is fixed.
fn origin(line: &mut Line) -> Result<Origin, Fault> {
    if !passes(line, b"learned") {
        return Ok(Origin::Fixed);
    }
    Ok(Origin::Learned(Metric(line.number()?)))
}

// A route is a prefix, a hop and an origin. It has no promise, as said above.
pub(crate) fn route(line: &mut Line) -> Result<Route, Fault> {
    let prefix = prefix(line)?;
    let hop = hop(line)?;
    let origin = origin(line)?;
    Ok(Route {
        prefix,
        payload: Payload { hop, origin },
    })
}
