// Room in a trail for a request, before anything is done.
ghost use Rattle.std.specs.Prelude.{◌≡◌, ◌+◌, ◌≤◌, ◌<◌, max, IsTrue, OnOk, OnErr};
ghost use Rattle.hb_server.specs.Rooms.{room_with};

use hb_trail::Trail;
use hb_types::{NoMemory, Request};

/// Room for one entry at least.
fn one(trail: &mut Trail) -> Result<(), NoMemory>
    ensures ok { OnOk result (trail.new ≡ record { entries = trail.old.entries; spare = max 1 trail.old.spare }) }
    ensures err { OnErr result ((trail.new ≡ trail.old) × (trail.old.spare ≡ 0)) }
{
    if trail.spare() > 0 {
        return Ok(());
    }
    trail.room(1)
}

/// Room for a request's entry. A Start takes that of the Stop with it, and an Enlist that of its branch's end, where a Commit, a
/// Rollback and a Stop find it.
pub(crate) fn take_room(trail: &mut Trail, request: &Request) -> Result<(), NoMemory>
    ensures ok { OnOk result ((trail.new.spare ≡ room_with request.now trail.old.spare) × (trail.new.entries ≡ trail.old.entries)) }
    ensures err { OnErr result ((trail.new ≡ trail.old) × (trail.old.spare < room_with request.now trail.old.spare)) }
{
    match request {
        Request::Start => trail.room(2),
        Request::Enlist { .. } => trail.room(2),
        Request::Commit { .. } => Ok(()),
        Request::Rollback { .. } => Ok(()),
        Request::Stop => one(trail),
        _ => trail.room(1),
    }
}

/// Whether there is room for the ends of so many branches more, which is taken.
pub(crate) fn takes_ends(trail: &mut Trail, branches: usize) -> bool
    ensures yes { IsTrue result → trail.new.spare ≡ trail.old.spare + branches }
    ensures entries { trail.new.entries ≡ trail.old.entries }
    ensures no_less { trail.old.spare ≤ trail.new.spare }
{
    match u32::try_from(branches) {
        Ok(branches) => trail.room(branches).is_ok(),
        Err(_) => false,
    }
}
