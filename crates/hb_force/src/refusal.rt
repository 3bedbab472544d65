// Why a record isn't made.
ghost use Rattle.std.specs.Prelude.{◌≡◌, true};
ghost use Rattle.hb_force.specs.Standing.{is_quiet};
ghost use Rattle.hb_types.specs.Calls.{IsAnswer};

use hb_types::{Answer, NoMemory};

/// Why a record isn't made.
#[derive(Clone, Copy, Debug, PartialEq, Eq)]
pub(crate) enum Refusal {
    /// The log would end past 2^62, or the record is too long.
    Spent,
    NoMemory,
}

impl From<NoMemory> for Refusal {
    ghost use Rattle.hb_force.specs.declared.refusal.Refusal.TheVariants as refusal;

    ghost from_gives = { λ _ e. e ≡ refusal.NoMemory };

    fn from(_: NoMemory) -> Refusal {
        Refusal::NoMemory
    }
}

impl Refusal {
    pub(crate) fn answer(self) -> Answer
        ensures spent { self ≡ Refusal.Spent → result ≡ Answer.NumbersSpent }
        ensures no_memory { self ≡ Refusal.NoMemory → result ≡ Answer.NoMemory }
        ensures quiet { is_quiet result ≡ true }
        ensures well_formed { IsAnswer result }
    {
        match self {
            Refusal::Spent => Answer::NumbersSpent,
            Refusal::NoMemory => Answer::NoMemory,
        }
    }
}
