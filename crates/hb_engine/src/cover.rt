// Which locks cover a path.
ghost use Rattle.std.specs.Prelude.{◌≡◌};
ghost use Rattle.hb_types.specs.Modes.{covers as mode_covers};
ghost use Rattle.hb_engine.specs.Covers.{is_covered_at, is_covered};

use hb_locks::LockTable;
use hb_types::{Mode, Path, Tx};

/// Whether a mode is as strong as another.
pub(crate) fn covers(held: Mode, wanted: Mode) -> bool
    ensures { result ≡ mode_covers held wanted }
{
    match (held, wanted) {
        (_, Mode::IS) | (Mode::X, _) => true,
        (Mode::IX, Mode::IX) | (Mode::S, Mode::S) => true,
        (Mode::SIX, Mode::IX | Mode::S | Mode::SIX) => true,
        _ => false,
    }
}

/// Whether the transaction holds one path in a mode as strong as this one.
pub(crate) fn is_held(locks: &LockTable, tx: Tx, path: Path, mode: Mode) -> bool
    ensures { result ≡ is_covered_at locks.now tx mode path }
{
    match locks.held(tx, path) {
        Some(held) => covers(held, mode),
        None => false,
    }
}

/// Whether the transaction holds the path, or one above it, in a mode as strong as this one.
pub(crate) fn is_covering(locks: &LockTable, tx: Tx, path: Path, mode: Mode) -> bool
    ensures { result ≡ is_covered locks.now tx mode path }
{
    if is_held(locks, tx, path, mode) {
        return true;
    }
    match path {
        Path::Whole(_) => false,
        Path::Group(space, _) => is_held(locks, tx, Path::Whole(space), mode),
        Path::Key(place) => {
            is_held(locks, tx, Path::Whole(place.space), mode)
                || is_held(locks, tx, Path::Group(place.space, place.group), mode)
        }
    }
}
