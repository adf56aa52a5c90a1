use super::asked::Command;
use super::phrase::{passes, prefix, route};
use numeral::{Fault, Line};
use route::Hand;

// The word learned behind the prefix says that a learner asks.
fn delete(line: &mut Line) -> Result<Command, Fault> {
    let prefix = prefix(line)?;
    let by = if passes(line, b"learned") {
        Hand::Learner
    } else {
        Hand::Plain
    };
    Ok(Command::Delete(by, prefix))
}

// The command that a line's first word begins.
fn begun(verb: &[u8], line: &mut Line) -> Result<Command, Fault> {
    match verb {
        b"lookup" => line.address().map(Command::Lookup),
        b"add" => route(line).map(Command::Add),
        b"delete" => delete(line),
        b"change" => route(line).map(Command::Change),
        b"next" => prefix(line).map(Command::Next),
        b"mask" => line.address().map(Command::Mask),
        b"fresh" => line.number().map(Command::Fresh),
        b"words" => line.number().map(Command::Words),
        b"peek" => line.number().map(Command::Peek),
        b"poke" => Ok(Command::Poke(line.number()?, line.number()?)),
        b"first" => Ok(Command::First),
        b"room" => Ok(Command::Room),
        b"sound" => Ok(Command::Sound),
        b"list" => Ok(Command::List),
        b"open" => Ok(Command::Open),
        b"keep" => Ok(Command::Keep),
        b"back" => Ok(Command::Back),
        b"step" => Ok(Command::Step),
        _ => Err(Fault::UnknownCommand),
    }
}

// The command that a line's first word begins, whole: a word behind its last is one too many, which is told only if nothing else is wrong.
fn whole(verb: &[u8], line: &mut Line) -> Result<Command, Fault> {
    let command = begun(verb, line)?;
    if !line.word().is_empty() {
        return Err(Fault::TooManyWords);
    }
    Ok(command)
}

// The command of a line, whatever bytes it has. It ends and reads only the line; which command it is has no promise, since the
// grammar stated in a contract would be this code again. The second program, written apart, is held to it.
pub fn parse(text: &[u8]) -> Command {
    let mut line = Line::new(text);
    let verb = line.word();
    if verb.is_empty() {
        return Command::Nothing;
    }
    line.skip();
    whole(verb, &mut line).unwrap_or_else(Command::Wrong)
}
