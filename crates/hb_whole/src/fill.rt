// A map of rows that are read.
ghost use Rattle.std.specs.Prelude.{◌≡◌, ◌∷◌, None, IfOk, OnOk};
ghost use Rattle.hb_types.specs.declared.places.Place.{Place as PlaceAt};
ghost use Rattle.hb_types.specs.Put.{put};
ghost use Rattle.hb_types.specs.Rows.{IsRow};
ghost use Rattle.hb_disks.specs.WholeImage.{as_change};
ghost use Rattle.hb_store.specs.Meanings.{IsStored};
ghost use Rattle.hb_whole.specs.Points.{AreRows};
ghost use Rattle.hb_whole.specs.Slots.{rows_of, room_at, AreOrdered, AreSound};

use crate::map::{Map, Slot};
use hb_types::{NoMemory, Stored};
use sqlite_items::Items;
use std::alloc::Global;
use std::collections::BTreeMap;

// Puts a row, without room, in place of what stands there.
fn add_row(map: &mut Map, row: Stored) -> Result<(), NoMemory>
    requires sound { AreSound map.old.entries }
    requires ordered { AreOrdered map.old.entries }
    requires fits { IsStored row }
    requires bare { (q : PlaceAt) → room_at map.old.entries q ≡ 0 }
    ensures rows { OnOk result (rows_of map.new.entries ≡ put (rows_of map.old.entries) (as_change row)) }
    ensures bare { OnOk result ((q : PlaceAt) → room_at map.new.entries q ≡ 0) }
    ensures sound { OnOk result (AreSound map.new.entries) }
    ensures ordered { OnOk result (AreOrdered map.new.entries) }
{
    let Stored { place, row } = row;
    map.insert(
        place,
        Slot {
            row: Some(row),
            room: 0,
        },
    )?;
    Ok(())
}

/// A map of these rows, with no room.
pub(crate) fn map_of(alloc: Global, rows: Items<Stored>) -> Result<Map, NoMemory>
    requires { AreRows rows }
    ensures rows { IfOk result (λ map. rows_of map.entries ≡ rows) }
    ensures bare { IfOk result (λ map. (q : PlaceAt) → room_at map.entries q ≡ 0) }
    ensures sound { IfOk result (λ map. AreSound map.entries) }
{
    let mut map = BTreeMap::new(alloc);
    let mut left = rows;
    while let Some(row) = left.pop() {
        add_row(&mut map, row)?;
    }
    Ok(map)
}
