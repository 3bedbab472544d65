// Rows by place, with room for changes to come.
ghost use Rattle.std.specs.Prelude.{◌≡◌, ◌+◌, ◌≤◌, ◌^◌, [], length, if◌then◌else◌, take, All, option_copied, IfSome, IfOk, MatchOption, OnOk, OnErr};
ghost use Rattle.std.specs.Ordering.{int_cmp};
ghost use Rattle.hb_types.specs.declared.places.Path.TheVariants.{Group};
ghost use Rattle.hb_types.specs.declared.places.Place.{Place as PlaceAt};
ghost use Rattle.hb_types.specs.Lists.{Ascends};
ghost use Rattle.hb_types.specs.Places.{place_cmp, same_place};
ghost use Rattle.hb_types.specs.Put.{lookup, put, rows_under};
ghost use Rattle.hb_types.specs.Rows.{IsRow};
ghost use Rattle.hb_store.specs.Meanings.{count_at, keys_of, IsStored};
ghost use Rattle.hb_disks.specs.WholeImage.{image_bytes};
ghost use Rattle.hb_whole.specs.Points.{AreRows};
ghost use Rattle.hb_whole.specs.Slots.{rows_of, room_at};

use crate::encode::{count, image};
use crate::fill::map_of;
use crate::listing::{keys_in, rows_in};
use crate::map::{Map, row_at, set_row, take_room};
use crate::rooms::{give_back, make_room};
use hb_types::{Change, NoMemory, Path, Place, Space, Stored};
use sqlite_items::Items;
use std::alloc::Global;
use std::collections::BTreeMap;
use std::marker::Model;

/// Rows by place, with room for changes to come; seen as the places that have one of them, ascending.
#[derive(Drop)]
pub struct Slots {
    alloc: Global,
    map: Map,
}

impl Model for Slots {
    ghost use Rattle.hb_whole.specs.Slots.{Entries, AreSound};

    ghost Value = { Entries };

    ghost view = { λ s. s.map.entries };

    ghost invariant = { λ s. AreSound s.map.entries };
}

impl Slots {
    pub fn new(alloc: Global) -> Slots
        ensures { result ≡ [] }
    {
        Slots {
            alloc,
            map: BTreeMap::new(alloc),
        }
    }

    /// The row at a place.
    pub fn row(&self, place: &Place) -> Option<&[u8]>
        ensures row { option_copied result ≡ lookup place.now (rows_of self.now) }
        ensures fits { IfSome result (λ r. IsRow r.now) }
    {
        row_at(&self.map, *place)
    }

    /// The rows under a path, ascending.
    pub fn list(&self, path: &Path) -> Result<Items<Stored>, NoMemory>
        ensures rows { IfOk result (λ found. found ≡ rows_under path.now (rows_of self.now)) }
        ensures ascending { IfOk result (Ascends (λ a b. place_cmp a.place b.place)) }
        ensures fit { IfOk result (All IsStored) }
    {
        rows_in(self.alloc, &self.map, *path)
    }

    /// The first keys of a group, ascending.
    pub fn keys(&self, space: Space, group: u16, most: u32) -> Result<Items<i64>, NoMemory>
        ensures keys { IfOk result (λ found. found ≡ take most (keys_of (rows_under (Group space group) (rows_of self.now)))) }
        ensures ascending { IfOk result (Ascends int_cmp) }
    {
        keys_in(self.alloc, &self.map, space, group, most)
    }

    /// Takes the memory for changes at these places.
    pub fn room(&mut self, changes: &[Change]) -> Result<(), NoMemory>
        ensures added { OnOk result ((q : PlaceAt) → room_at self.new q ≡ room_at self.old q + count_at q changes.now) }
        ensures none { OnErr result ((q : PlaceAt) → room_at self.new q ≡ room_at self.old q) }
        ensures rows { rows_of self.new ≡ rows_of self.old }
    {
        make_room(&mut self.map, changes)
    }

    /// Gives back the memory for these changes, once each.
    pub fn unroom(&mut self, changes: &[Change])
        requires { (q : PlaceAt) → count_at q changes.now ≤ room_at self.old q }
        ensures room { (q : PlaceAt) → room_at self.old q ≡ room_at self.new q + count_at q changes.now }
        ensures rows { rows_of self.new ≡ rows_of self.old }
    {
        give_back(&mut self.map, changes);
    }

    /// Makes a change for which there is room.
    pub fn apply(&mut self, change: Change)
        requires room { 1 ≤ room_at self.old change.place }
        requires row { IfSome change.row IsRow }
        ensures rows { rows_of self.new ≡ put (rows_of self.old) change }
        ensures room { (q : PlaceAt) → room_at self.old q ≡ room_at self.new q + (if same_place q change.place then 1 else 0) }
    {
        let Change { place, row } = change;
        set_row(&mut self.map, place, row);
        take_room(&mut self.map, place);
    }

    /// These rows, with no room.
    pub fn from_rows(alloc: Global, rows: Items<Stored>) -> Result<Slots, NoMemory>
        requires { AreRows rows }
        ensures rows { IfOk result (λ slots. rows_of slots ≡ rows) }
        ensures bare { IfOk result (λ slots. (q : PlaceAt) → room_at slots q ≡ 0) }
    {
        let map = map_of(alloc, rows)?;
        Ok(Slots { alloc, map })
    }

    /// How many rows there are, if a count of four bytes holds that.
    pub fn count(&self) -> Option<u32>
        ensures { MatchOption result (2 ^ 32 ≤ length (rows_of self.now)) (λ n. n ≡ length (rows_of self.now)) }
    {
        count(&self.map)
    }

    /// The image of all rows.
    pub fn image(&self, count: u32) -> Result<Vec<u8>, NoMemory>
        requires { count ≡ length (rows_of self.now) }
        ensures image { IfOk result (λ bytes. bytes.items ≡ image_bytes (rows_of self.now)) }
        ensures sound { OnOk result (AreRows (rows_of self.now)) }
    {
        image(self.alloc, &self.map, count)
    }
}
