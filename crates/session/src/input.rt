use arrayvec::ArrayVec;
use command::Command;
use numeral::Fault;
use perform::Changed;
use reply::Words;
use std::io::{Read, Write};

// The longest line has 200 bytes.
const LONGEST: usize = 200;

// The line that is read: its number, and its bytes from earlier blocks. There is room for the longest, a carriage return behind it, and one
// byte more, by which a longer line is told.
#[derive(Drop)]
struct Line {
    bytes: ArrayVec<u8, 202>,
    number: u64,
}

impl Line {
    // A piece more, as far as there is room.
    fn extend(&mut self, piece: &[u8]) {
        let room = self.bytes.remaining_capacity().min(piece.len());
        let _ = self.bytes.try_extend_from_slice(&piece[..room]);
    }
}

// The command of a line, without a carriage return at its end.
fn command_of(line: &[u8]) -> Command {
    let text = line.strip_suffix(b"\r").unwrap_or(line);
    if LONGEST < text.len() {
        return Command::Wrong(Fault::LineTooLong);
    }
    command::parse(text)
}

// The answer to a command, once what it changes is changed.
fn answer<W: Write>(out: &mut W, words: &Words, command: Command, changed: Changed, line: u64) {
    match changed {
        Changed::Answered(answer) => reply::changed(out, answer),
        Changed::Outside => reply::wrong(out, line, Fault::OutsideBuffer),
        Changed::Nothing => reply::asked(out, words, command, line),
    }
}

// A whole line: it is done, and answered if answers are wanted.
fn obey<W: Write>(out: &mut W, words: &mut Words, line: &[u8], number: u64, answers: bool) {
    // A line that asks for nothing is not worth the way to the table and back, nor an empty one that to the parser.
    if line.is_empty() {
        return;
    }
    let command = command_of(line);
    if matches!(command, Command::Nothing) {
        return;
    }
    let changed = perform::change(words, command);
    if answers {
        answer(out, words, command, changed, number);
    }
}

// A block of the input. A line that lies in it whole is read where it stands.
fn take<W: Write>(out: &mut W, words: &mut Words, line: &mut Line, block: &[u8], answers: bool) {
    for piece in block.split_inclusive(|byte| *byte == b'\n') {
        let Some(end) = piece.strip_suffix(b"\n") else {
            line.extend(piece);
            return;
        };
        if line.bytes.is_empty() {
            obey(out, words, end, line.number, answers);
        } else {
            line.extend(end);
            obey(out, words, line.bytes.as_slice(), line.number, answers);
            line.bytes.clear();
        }
        line.number = line.number.wrapping_add(1);
    }
}

// Every command of what is read, one a line. A last line without a newline counts. What a command does to the words is promised
// where it is done (`perform::change`). Of a whole run nothing is: which command a line makes has no promise (`command::parse`), and a row of
// them with `poke` among them can leave any words.
//
// One read takes as many bytes as there are by then, so that a line that is typed is answered at once. A proved loop has to end, and nothing
// says that the input does: the turns are counted up to a number that no run reaches.
pub fn run<R: Read, W: Write>(source: &mut R, out: &mut W, words: &mut Words, answers: bool) {
    let mut line = Line {
        bytes: ArrayVec::new(),
        number: 1,
    };
    let mut block = [0u8; 512];
    for _ in 0..u64::MAX {
        let Ok(n) = source.read(&mut block) else {
            break;
        };
        if n == 0 {
            break;
        }
        take(out, words, &mut line, &block[..n], answers);
    }
    if !line.bytes.is_empty() {
        obey(out, words, line.bytes.as_slice(), line.number, answers);
    }
}
