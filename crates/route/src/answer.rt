ghost use Rattle.std.specs.Prelude.{◌≡◌};
ghost use Rattle.route.specs.Answers.{refusal_number, answer_number};
ghost use Rattle.route.specs.Masks.{measured_as};

use super::prefix::Length;

// Why a call says no, each with its number of document 01 or 02.
#[derive(Clone, Copy, PartialEq, Eq)]
pub enum Refusal {
    BadCapacity = 1,
    ShortBuffer = 2,
    BadPrefix = 3,
    BadHop = 4,
    AlreadyThere = 5,
    NotThere = 6,
    TableFull = 7,
    TrialFull = 8,
    NotSound = 9,
    TrialIsOpen = 10,
    NoTrial = 11,
    NothingStanding = 12,
    NoMatch = 13,
    NoFurther = 14,
    RouteIsFixed = 15,
    BadMetric = 16,
}

impl Refusal {
    pub fn number(self) -> u32
        ensures { result ≡ refusal_number self }
    {
        self as u32
    }
}

// What a call answers: its value, or why it says no.
pub type Answer<T> = Result<T, Refusal>;

// The number of document 01, for a caller that goes on without the value.
pub fn number<T: Copy>(answer: Answer<T>) -> u32
    ensures { result ≡ answer_number answer }
{
    match answer {
        Ok(_) => 0,
        Err(refusal) => refusal.number(),
    }
}

// The length of a mask, or that it has a hole.
#[tactic(auto, unfolding(bits::specs::Answer::mask_answer, crate::specs::Masks::measured_as))]
pub fn measure(mask: u32) -> Answer<Length>
    ensures { result ≡ measured_as mask }
{
    bits::mask_length(mask)
        .map(Length)
        .ok_or(Refusal::BadPrefix)
}
