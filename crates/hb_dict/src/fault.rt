// Why a row of the dictionary isn't read.
ghost use Rattle.std.specs.Prelude.{◌≡◌};
ghost use Rattle.hb_dict.specs.declared.fault.DictFault.TheVariants as fault;

use hb_types::NoMemory;
use std::alloc::AllocError;
use thiserror::Error;

/// Why a row of the dictionary isn't read.
#[derive(Clone, Copy, Debug, PartialEq, Eq, Error)]
pub enum DictFault {
    #[error("not a row of this shape")]
    NotOfShape,
    #[error("no memory")]
    NoMemory,
}

impl From<NoMemory> for DictFault {
    ghost from_gives = { λ _ e. e ≡ fault.NoMemory };

    fn from(_: NoMemory) -> DictFault {
        DictFault::NoMemory
    }
}

impl From<AllocError> for DictFault {
    ghost from_gives = { λ _ e. e ≡ fault.NoMemory };

    fn from(_: AllocError) -> DictFault {
        DictFault::NoMemory
    }
}
