// Why assignments are refused.
ghost use Rattle.std.specs.Prelude.{◌≡◌};
ghost use Rattle.hb_sqlrow.specs.declared.fault.SetFault.TheVariants as fault;

use hb_types::NoMemory;
use std::alloc::AllocError;
use thiserror::Error;

/// Why assignments are refused.
#[derive(Clone, Copy, Debug, PartialEq, Eq, Error)]
pub enum SetFault {
    #[error("a number is outside INTEGER")]
    Overflow,
    #[error("a text is longer than its column")]
    TooLong,
    #[error("no memory")]
    NoMemory,
}

impl From<NoMemory> for SetFault {
    ghost from_gives = { λ _ e. e ≡ fault.NoMemory };

    fn from(_: NoMemory) -> SetFault {
        SetFault::NoMemory
    }
}

impl From<AllocError> for SetFault {
    ghost from_gives = { λ _ e. e ≡ fault.NoMemory };

    fn from(_: AllocError) -> SetFault {
        SetFault::NoMemory
    }
}
