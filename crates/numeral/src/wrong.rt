use std::error::Error;
use std::fmt;

// What is wrong with a line.
#[derive(Clone, Copy, Debug, PartialEq, Eq)]
pub enum Fault {
    UnknownCommand,
    BadAddress,
    BadNumber,
    BadPrefix,
    BadHop,
    TooFewWords,
    TooManyWords,
    LineTooLong,
    OutsideBuffer,
}

impl fmt::Display for Fault {
    ghost use Rattle.std.specs.Prelude.{Some};
    ghost use Rattle.numeral.specs.Texts.{text_of};

    ghost output = { λ f. Some (text_of f) };

    fn fmt<W: fmt::Write>(&self, f: &mut fmt::Formatter<W>) -> fmt::Result {
        match self {
            Fault::UnknownCommand => f.write_str("unknown command"),
            Fault::BadAddress => f.write_str("bad address"),
            Fault::BadNumber => f.write_str("bad number"),
            Fault::BadPrefix => f.write_str("bad prefix"),
            Fault::BadHop => f.write_str("bad hop"),
            Fault::TooFewWords => f.write_str("too few words"),
            Fault::TooManyWords => f.write_str("too many words"),
            Fault::LineTooLong => f.write_str("line too long"),
            Fault::OutsideBuffer => f.write_str("outside the buffer"),
        }
    }
}

impl Error for Fault {}
