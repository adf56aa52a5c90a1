// What a command does to the words of a pool, before any of it is told.
#![tactic(auto)]

ghost use Rattle.perform.specs.Performs.{Pokes, Performs};

use command::Command;
use route::Answer;

// What is to be told of a command: the answer of a call, that a poke was outside the buffer, or nothing that a change has to say.
#[derive(Clone, Copy, PartialEq, Eq)]
pub enum Changed {
    Answered(Answer<()>),
    Outside,
    Nothing,
}

fn poke(words: &mut [u32], index: u32, value: u32) -> Changed
    ensures { Pokes index value words.old words.new result }
{
    let i = index as usize;
    if words.len() <= i {
        return Changed::Outside;
    }
    words[i] = value;
    Changed::Answered(Ok(()))
}

// A change is made and answered; a command that only asks leaves the words alone.
pub fn change(words: &mut [u32], command: Command) -> Changed
    ensures { Performs command words.old words.new result }
{
    match command {
        Command::Fresh(capacity) => Changed::Answered(table::fresh(words, capacity)),
        Command::Add(route) => Changed::Answered(table::add(words, route)),
        Command::Delete(by, prefix) => Changed::Answered(table::delete(words, by, prefix)),
        Command::Change(route) => Changed::Answered(table::change_hop(words, route)),
        Command::Open => Changed::Answered(table::open_trial(words)),
        Command::Keep => Changed::Answered(table::keep_trial(words)),
        Command::Back => Changed::Answered(table::back_out(words)),
        Command::Step => Changed::Answered(table::step_back(words)),
        Command::Poke(index, value) => poke(words, index, value),
        _ => Changed::Nothing,
    }
}
