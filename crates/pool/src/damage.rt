ghost use Rattle.std.specs.Prelude.{◌≡◌};
ghost use Rattle.route.specs.declared.answer.Refusal.TheVariants.{NotSound};

use route::Refusal;

// What no sound pool has was found among the words.
#[derive(Clone, Copy, PartialEq, Eq)]
pub struct Damage;

// A call answers it with number 9.
impl From<Damage> for Refusal {
    ghost from_gives = { λ _ r. r ≡ NotSound };

    fn from(_damage: Damage) -> Refusal {
        Refusal::NotSound
    }
}
