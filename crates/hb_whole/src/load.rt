// Takes over a point that is loaded.
ghost use Rattle.std.specs.Prelude.{◌≡◌, [], None, OnOk, OnErr};
ghost use Rattle.hb_types.specs.declared.places.Place.{Place as PlaceAt};
ghost use Rattle.hb_whole.specs.Points.{AreRows};
ghost use Rattle.hb_whole.specs.Store.{rows_in, room_in};

use crate::find::Found;
use crate::slots::Slots;
use crate::whole::Whole;
use hb_types::NoMemory;

impl Whole {
    /// Forgets rows, room and points.
    pub(crate) fn forget(&mut self)
        ensures rows { rows_in self.new ≡ [] }
        ensures room { (place : PlaceAt) → room_in self.new place ≡ 0 }
        ensures begun { self.new.begun ≡ None }
        ensures written { self.new.written ≡ None }
    {
        self.slots = Slots::new(self.alloc);
        self.valid = None;
        self.spare_open = false;
        self.begun = None;
        self.written = None;
    }

    /// Takes over the point that was found.
    pub(crate) fn take(&mut self, found: Found) -> Result<(), NoMemory>
        requires sound { AreRows found.rows }
        requires bare { (place : PlaceAt) → room_in self.old place ≡ 0 }
        ensures rows { OnOk result (rows_in self.new ≡ found.rows) }
        ensures valid { OnOk result ((self.new.valid ≡ found.valid) × (self.new.spare_open ≡ found.spare_open)) }
        ensures refused { OnErr result (rows_in self.new ≡ rows_in self.old) }
        ensures room { (place : PlaceAt) → room_in self.new place ≡ 0 }
        ensures begun { self.new.begun ≡ self.old.begun }
        ensures written { self.new.written ≡ self.old.written }
    {
        let Found {
            valid,
            spare_open,
            point: _,
            rows,
        } = found;
        self.slots = Slots::from_rows(self.alloc, rows)?;
        self.valid = valid;
        self.spare_open = spare_open;
        Ok(())
    }
}
