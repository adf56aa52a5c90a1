use numeral::Fault;
use route::{Hand, Prefix, Route};

// What a line asks for. A blank line and a comment ask for nothing.
#[derive(Clone, Copy, PartialEq, Eq)]
pub enum Command {
    Nothing,
    Fresh(u32),
    Add(Route),
    Delete(Hand, Prefix),
    Change(Route),
    Lookup(u32),
    First,
    Next(Prefix),
    Room,
    Mask(u32),
    Open,
    Keep,
    Back,
    Step,
    Sound,
    List,
    Words(u32),
    Peek(u32),
    Poke(u32, u32),
    Wrong(Fault),
}
