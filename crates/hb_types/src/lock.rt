// Lock modes, and who holds which.
ghost use Rattle.std.specs.Prelude.{◌≡◌};
ghost use Rattle.hb_types.specs.Modes.{compatible as modes_compatible, join as modes_join};

use crate::names::Tx;
use crate::places::Path;

/// The strength of a lock.
#[derive(Clone, Copy, Debug, PartialEq, Eq)]
pub enum Mode {
    IS,
    IX,
    S,
    SIX,
    X,
}

/// A lock that a branch holds.
#[derive(Clone, Copy, Debug, PartialEq, Eq)]
pub struct Held {
    pub path: Path,
    pub mode: Mode,
}

/// Who holds a lock that stands in the way.
#[derive(Clone, Copy, Debug, PartialEq, Eq)]
pub struct Holder {
    pub tx: Tx,
    pub mode: Mode,
}

/// Whether two transactions may hold these modes on one path.
pub fn compatible(a: Mode, b: Mode) -> bool
    ensures { result ≡ modes_compatible a b }
{
    match (a, b) {
        (Mode::X, _) | (_, Mode::X) => false,
        (Mode::IS, _) | (_, Mode::IS) => true,
        (Mode::IX, Mode::IX) | (Mode::S, Mode::S) => true,
        _ => false,
    }
}

/// The least mode that is as strong as both.
pub fn join(a: Mode, b: Mode) -> Mode
    ensures { result ≡ modes_join a b }
{
    match (a, b) {
        (Mode::X, _) | (_, Mode::X) => Mode::X,
        (Mode::SIX, _) | (_, Mode::SIX) => Mode::SIX,
        (Mode::S, Mode::IX) | (Mode::IX, Mode::S) => Mode::SIX,
        (Mode::S, _) | (_, Mode::S) => Mode::S,
        (Mode::IX, _) | (_, Mode::IX) => Mode::IX,
        _ => Mode::IS,
    }
}
