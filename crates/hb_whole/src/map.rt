// Places with a row, or with room for one.
ghost use Rattle.std.specs.Prelude.{◌≡◌, ◌+◌, ◌≤◌, [], if◌then◌else◌, option_copied, IfSome, IsTrue, OnOk, OnErr, Some, None};
ghost use Rattle.hb_types.specs.declared.places.Place.{Place as PlaceAt};
ghost use Rattle.hb_types.specs.Places.{same_place, IsPlace};
ghost use Rattle.hb_types.specs.Put.{lookup, put};
ghost use Rattle.hb_types.specs.Rows.{IsRow};
ghost use Rattle.hb_whole.specs.Slots.{rows_of, room_at, row_in, slot_at, AreOrdered, AreSound};

use hb_types::{Bytes, NoMemory, Place};
use std::collections::BTreeMap;

/// The row at a place, and for how many changes there is room.
#[derive(Drop)]
pub struct Slot {
    pub row: Option<Bytes>,
    pub room: u64,
}

pub(crate) type Map = BTreeMap<Place, Slot>;

// A law: the numbers of a place have the range of their types.
pub(crate) fn places_are_places(_place: Place)
    ensures { IsPlace _place }
{}

fn row_of(slot: &Slot) -> Option<&[u8]>
    ensures { option_copied result ≡ slot.now.row }
{
    match &slot.row {
        Some(row) => Some(row.as_slice()),
        None => None,
    }
}

pub(crate) fn row_at(map: &Map, place: Place) -> Option<&[u8]>
    requires { AreSound map.now.entries }
    ensures row { option_copied result ≡ lookup place (rows_of map.now.entries) }
    ensures fits { IfSome result (λ r. IsRow r.now) }
{
    if map.len() == 0 {
        return None;
    }
    match map.get(&place) {
        Some(slot) => row_of(slot),
        None => None,
    }
}

/// Room for one change more at a place.
pub(crate) fn add_room(map: &mut Map, place: Place) -> Result<(), NoMemory>
    requires { AreSound map.old.entries }
    ensures added { OnOk result ((q : PlaceAt) → room_at map.new.entries q ≡ room_at map.old.entries q + (if same_place q place then 1 else 0)) }
    ensures none { OnErr result ((q : PlaceAt) → room_at map.new.entries q ≡ room_at map.old.entries q) }
    ensures rows { rows_of map.new.entries ≡ rows_of map.old.entries }
    ensures sound { AreSound map.new.entries }
    ensures ordered { AreOrdered map.new.entries }
{
    if let Some(slot) = map.get_mut(&place) {
        return match slot.room.checked_add(1) {
            Some(room) => {
                slot.room = room;
                Ok(())
            }
            None => Err(NoMemory),
        };
    }
    places_are_places(place);
    map.insert(place, Slot { row: None, room: 1 })?;
    Ok(())
}

/// Puts a row, or none, into the slot at a place.
pub(crate) fn set_row(map: &mut Map, place: Place, row: Option<Bytes>)
    requires there { 1 ≤ room_at map.old.entries place }
    requires sound { AreSound map.old.entries }
    requires fits { IfSome row IsRow }
    ensures rows { rows_of map.new.entries ≡ put (rows_of map.old.entries) (record { place = place; row = row }) }
    ensures room { (q : PlaceAt) → room_at map.new.entries q ≡ room_at map.old.entries q }
    ensures sound { AreSound map.new.entries }
    ensures ordered { AreOrdered map.new.entries }
{
    if let Some(slot) = map.get_mut(&place) {
        slot.row = row;
    }
}

/// Takes one change's room away, and a slot that has nothing then.
pub(crate) fn take_room(map: &mut Map, place: Place)
    requires there { 1 ≤ room_at map.old.entries place }
    requires sound { AreSound map.old.entries }
    ensures rows { rows_of map.new.entries ≡ rows_of map.old.entries }
    ensures room { (q : PlaceAt) → room_at map.old.entries q ≡ room_at map.new.entries q + (if same_place q place then 1 else 0) }
    ensures sound { AreSound map.new.entries }
    ensures ordered { AreOrdered map.new.entries }
{
    if lower(map, place) {
        map.remove(&place);
    }
}

// Lowers the room of a slot, and tells whether the slot has nothing then.
fn lower(map: &mut Map, place: Place) -> bool
    requires there { 1 ≤ room_at map.old.entries place }
    requires sound { AreSound map.old.entries }
    ensures nothing { IsTrue result → (row_in (slot_at map.new.entries place) ≡ None) × (room_at map.new.entries place ≡ 0) }
    ensures rows { rows_of map.new.entries ≡ rows_of map.old.entries }
    ensures room { (q : PlaceAt) → room_at map.old.entries q ≡ room_at map.new.entries q + (if same_place q place then 1 else 0) }
    ensures sound { AreSound map.new.entries }
    ensures ordered { AreOrdered map.new.entries }
{
    match map.get_mut(&place) {
        Some(slot) => {
            slot.room -= 1;
            slot.room == 0 && slot.row.is_none()
        }
        None => false,
    }
}
