// Why a log isn't redone.
use hb_types::NoMemory;

/// Why a log isn't redone.
#[derive(Clone, Copy, Debug, PartialEq, Eq)]
pub enum RedoFault {
    /// The record at this place is bad, or, at the log's end, there is no room for the ends of its branches.
    Damaged { place: u64 },
    NoMemory,
}

impl From<NoMemory> for RedoFault {
    ghost use Rattle.std.specs.Prelude.{◌≡◌};
    ghost use Rattle.hb_redo.specs.declared.fault.RedoFault.TheVariants as fault;

    ghost from_gives = { λ _ e. e ≡ fault.NoMemory };

    fn from(_: NoMemory) -> Self {
        RedoFault::NoMemory
    }
}
