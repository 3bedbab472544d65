// The ladder of a lock: the paths above it in their intention mode, and then the path.
ghost use Rattle.std.specs.Prelude.{◌≡◌};
ghost use Rattle.hb_types.specs.Ladders.{ladder};
ghost use Rattle.hb_types.specs.Places.{intention as mode_intention};
ghost use Rattle.hb_locks.specs.Locks.{HoldsAncestors};
ghost use Rattle.hb_engine.specs.Climbs.{Rung, Climbs, HasLadder};

use hb_locks::{LockTable, Take};
use hb_types::{Answer, Mode, NoMemory, Path, Space, Tx};

/// The mode in which the paths above are taken.
pub(crate) fn intention(mode: Mode) -> Mode
    ensures { result ≡ mode_intention mode }
{
    match mode {
        Mode::IS | Mode::S => Mode::IS,
        Mode::IX | Mode::SIX | Mode::X => Mode::IX,
    }
}

/// Takes the locks of a path's ladder: Done, or what the first that isn't granted is answered.
pub(crate) fn climb(locks: &mut LockTable, tx: Tx, path: Path, mode: Mode) -> Answer
    ensures { Climbs tx locks.old locks.new (ladder path mode) result }
{
    match path {
        Path::Whole(space) => climb_space(locks, tx, space, mode),
        Path::Group(space, group) => climb_group(locks, tx, space, group, mode),
        Path::Key(place) => {
            match climb_group(locks, tx, place.space, place.group, intention(mode)) {
                Answer::Done => rung(locks, tx, path, mode),
                other => other,
            }
        }
    }
}

fn climb_space(locks: &mut LockTable, tx: Tx, space: Space, mode: Mode) -> Answer
    ensures says { Climbs tx locks.old locks.new (ladder (Path.Whole space) mode) result }
    ensures held { result ≡ Answer.Done → HasLadder locks.new tx (Path.Whole space) mode }
{
    rung(locks, tx, Path::Whole(space), mode)
}

fn climb_group(locks: &mut LockTable, tx: Tx, space: Space, group: u16, mode: Mode) -> Answer
    ensures says { Climbs tx locks.old locks.new (ladder (Path.Group space group) mode) result }
    ensures held { result ≡ Answer.Done → HasLadder locks.new tx (Path.Group space group) mode }
{
    match climb_space(locks, tx, space, intention(mode)) {
        Answer::Done => rung(locks, tx, Path::Group(space, group), mode),
        other => other,
    }
}

/// Takes one lock, where those above it are held.
fn rung(locks: &mut LockTable, tx: Tx, path: Path, mode: Mode) -> Answer
    requires { HoldsAncestors locks.old tx path mode }
    ensures says { Rung tx (record { path = path; mode = mode }) locks.old locks.new result }
    ensures held { result ≡ Answer.Done → HasLadder locks.new tx path mode }
{
    match locks.take(tx, path, mode) {
        Ok(Take::Granted) => Answer::Done,
        Ok(Take::Blocked { wanted, holders }) => Answer::Blocked {
            path,
            wanted,
            holders,
        },
        Err(NoMemory) => Answer::NoMemory,
    }
}
