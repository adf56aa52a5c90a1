ghost use Rattle.std.specs.Prelude.{◌≡◌};
ghost use Rattle.pool.specs.Action.{action_from, action_word};

// What a recorded change did, each with the word that says so.
#[derive(Clone, Copy, PartialEq, Eq)]
pub enum Action {
    Added = 1,
    Deleted = 2,
    Changed = 3,
}

impl Action {
    // The action that a word says, if it says one.
    pub fn from_word(word: u32) -> Option<Action>
        ensures { result ≡ action_from word }
    {
        match word {
            1 => Some(Action::Added),
            2 => Some(Action::Deleted),
            3 => Some(Action::Changed),
            _ => None,
        }
    }

    // The word that says it.
    pub fn word(self) -> u32
        ensures { result ≡ action_word self }
    {
        self as u32
    }
}
