// The answers as lines. None of the three that are public has a promise. They are lent the words to read, which is why those stay as they
// are. They go on where a line can't be written, and what a failed write leaves no contract of a writer says, so that a clause has nothing
// to say of the writer behind them. What is printed is compared with what a second program prints.
use super::line::line;
use super::routes::{Words, list};
use command::Command;
use numeral::Fault;
use route::Answer;
use std::fmt::Display;
use std::io::Write;

// What is wrong with a line.
pub fn wrong<W: Write>(out: &mut W, number: u64, fault: Fault) {
    line(out, &format_args!("error: line {number}: {fault}"));
}

// The number of a change.
pub fn changed<W: Write>(out: &mut W, answer: Answer<()>) {
    line(out, &route::number(answer));
}

// A value behind a 0, or the number of the refusal.
fn told<W: Write, T: Display + Copy>(out: &mut W, answer: Answer<T>) {
    let Ok(value) = answer else {
        return line(out, &route::number(answer));
    };
    line(out, &format_args!("0 {value}"));
}

// The words that a capacity needs, or 0 for a capacity that fresh refuses.
fn needed(capacity: u32) -> usize {
    match capacity {
        1..=pool::LIMIT => pool::size_of(capacity as usize),
        _ => 0,
    }
}

fn peek<W: Write>(out: &mut W, words: &Words, index: u32, number: u64) {
    match words.get(index as usize) {
        Some(word) => line(out, word),
        None => wrong(out, number, Fault::OutsideBuffer),
    }
}

// The commands that only ask, and those that are none.
pub fn asked<W: Write>(out: &mut W, words: &Words, command: Command, number: u64) {
    match command {
        Command::Lookup(destination) => told(out, table::lookup(words, destination)),
        Command::First => told(out, table::first(words)),
        Command::Next(prefix) => told(out, table::next(words, prefix)),
        Command::Room => told(out, table::room_left(words)),
        Command::Mask(bits) => told(out, table::mask_length(bits).map(|length| length.0)),
        Command::Sound => {
            let answer = if table::sound(words) { "yes" } else { "no" };
            line(out, &answer);
        }
        Command::List => {
            let _ = list(out, words);
        }
        Command::Words(capacity) => {
            line(out, &needed(capacity));
        }
        Command::Peek(index) => peek(out, words, index, number),
        Command::Wrong(fault) => wrong(out, number, fault),
        _ => {}
    }
}
