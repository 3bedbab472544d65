// Why the next line couldn't be had.
ghost use Rattle.std.specs.Prelude.{◌≡◌};
ghost use Rattle.hb_lines.specs.declared.fault.LineFault.TheVariants.{NoMemory as Memory};

use hb_types::NoMemory;
use std::alloc::{AllocError, AllocFailed};

/// Why the next line couldn't be had.
#[derive(Clone, Copy, Debug, PartialEq, Eq)]
pub enum LineFault {
    Source,
    /// A line of more than 8,192 bytes.
    TooLong,
    NoMemory,
}

impl From<NoMemory> for LineFault {
    ghost from_gives = { λ _ e. e ≡ Memory };

    fn from(_: NoMemory) -> Self {
        LineFault::NoMemory
    }
}

impl From<AllocError> for LineFault {
    ghost from_gives = { λ _ e. e ≡ Memory };

    fn from(_: AllocError) -> Self {
        LineFault::NoMemory
    }
}

impl<T: Drop> From<AllocFailed<T>> for LineFault {
    ghost from_gives = { λ _ e. e ≡ Memory };

    fn from(_: AllocFailed<T>) -> Self {
        LineFault::NoMemory
    }
}
