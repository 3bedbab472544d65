// Why a line says nothing.
ghost use Rattle.std.specs.Prelude.{◌≡◌};
ghost use Rattle.hb_sqlparse.specs.declared.fault.ParseFault.TheVariants.{NoMemory as Memory};

use hb_types::NoMemory;
use thiserror::Error;

/// Why a line says nothing.
#[derive(Clone, Copy, Debug, PartialEq, Eq, Error)]
pub enum ParseFault {
    /// The place, from 1, of the first byte of the first token such that the tokens up to and with it begin no line; the
    /// line's length and 1 where all tokens begin a line but are none.
    #[error("no line goes on with what stands at byte {byte}")]
    Syntax { byte: u32 },
    #[error("no memory")]
    NoMemory,
}

impl From<NoMemory> for ParseFault {
    ghost from_gives = { λ _ e. e ≡ Memory };

    fn from(_: NoMemory) -> Self {
        ParseFault::NoMemory
    }
}
