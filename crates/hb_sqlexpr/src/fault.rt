// Why an expression has no value.
ghost use Rattle.std.specs.Prelude.{◌≡◌};
ghost use Rattle.hb_sqlexpr.specs.declared.fault.ExprFault.TheVariants as fault;

use hb_types::NoMemory;
use std::alloc::AllocError;
use thiserror::Error;

/// A number on the way is outside INTEGER.
#[derive(Clone, Copy, Debug, PartialEq, Eq, Error)]
#[error("a number is outside INTEGER")]
pub struct Overflow;

/// Why an expression has no value.
#[derive(Clone, Copy, Debug, PartialEq, Eq, Error)]
pub enum ExprFault {
    #[error("a number is outside INTEGER")]
    Overflow,
    #[error("no memory")]
    NoMemory,
}

impl From<Overflow> for ExprFault {
    ghost from_gives = { λ _ e. e ≡ fault.Overflow };

    fn from(_: Overflow) -> ExprFault {
        ExprFault::Overflow
    }
}

impl From<NoMemory> for ExprFault {
    ghost from_gives = { λ _ e. e ≡ fault.NoMemory };

    fn from(_: NoMemory) -> ExprFault {
        ExprFault::NoMemory
    }
}

impl From<AllocError> for ExprFault {
    ghost from_gives = { λ _ e. e ≡ fault.NoMemory };

    fn from(_: AllocError) -> ExprFault {
        ExprFault::NoMemory
    }
}
