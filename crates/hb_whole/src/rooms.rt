// Room for changes to come.
ghost use Rattle.std.specs.Prelude.{◌≡◌, ◌+◌, ◌≤◌, OnOk, OnErr};
ghost use Rattle.hb_types.specs.declared.places.Place.{Place as PlaceAt};
ghost use Rattle.hb_store.specs.Meanings.{count_at};
ghost use Rattle.hb_whole.specs.Slots.{rows_of, room_at, AreSound};

use crate::map::{Map, add_room, take_room};
use hb_types::{Change, NoMemory};

/// Gives back the room for these changes, once each.
pub(crate) fn give_back(map: &mut Map, changes: &[Change])
    requires there { (q : PlaceAt) → count_at q changes.now ≤ room_at map.old.entries q }
    requires sound { AreSound map.old.entries }
    ensures room { (q : PlaceAt) → room_at map.old.entries q ≡ room_at map.new.entries q + count_at q changes.now }
    ensures rows { rows_of map.new.entries ≡ rows_of map.old.entries }
    ensures sound { AreSound map.new.entries }
{
    for change in changes {
        take_room(map, change.place);
    }
}

/// Takes room for these changes, once each.
pub(crate) fn make_room(map: &mut Map, changes: &[Change]) -> Result<(), NoMemory>
    requires sound { AreSound map.old.entries }
    ensures added { OnOk result ((q : PlaceAt) → room_at map.new.entries q ≡ room_at map.old.entries q + count_at q changes.now) }
    ensures none { OnErr result ((q : PlaceAt) → room_at map.new.entries q ≡ room_at map.old.entries q) }
    ensures rows { rows_of map.new.entries ≡ rows_of map.old.entries }
    ensures sound { AreSound map.new.entries }
{
    let mut at = 0;
    while at < changes.len() {
        match add_room(map, changes[at].place) {
            Ok(()) => at += 1,
            Err(_) => {
                let (made, _) = changes.split_at(at);
                give_back(map, made);
                return Err(NoMemory);
            }
        }
    }
    Ok(())
}
