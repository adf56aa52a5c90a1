use arrayvec::ArrayString;
use std::fmt::{Display, Write as _};
use std::io::Write;

// The longest line is a route's behind a 0, in a damaged pool, whose words may be any: 79 bytes.
const ROOM: usize = 96;

// A line in one write; one without room would go out in pieces. What can't be written is lost, and the next line is tried.
pub(crate) fn line<W: Write, T: Display>(out: &mut W, text: &T) {
    let mut line = ArrayString::<ROOM>::new();
    let _ = match writeln!(line, "{text}") {
        Ok(()) => out.write_all(line.as_str().as_bytes()),
        Err(_) => writeln!(out, "{text}"),
    };
}
