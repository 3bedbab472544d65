// The store whose points are images of all rows.
ghost use Rattle.std.specs.Prelude.{◌≡◌, ◌+◌, ◌≤◌, [], None};
ghost use Rattle.hb_types.specs.declared.places.Place.{Place as PlaceAt};
ghost use Rattle.hb_whole.specs.Store.{rows_in, room_in, begun_in};

use crate::find::find;
use crate::next::next_image;
use crate::slots::Slots;
use crate::valid::Valid;
use hb_codec::changes_have_one_form;
use hb_edge::{Clock, Disk};
use hb_store::{Flushed, Point, Store, StoreFault};
use hb_types::{Change, NoMemory, Path, Place, Space, Stored};
use sqlite_items::Items;
use std::alloc::Global;

/// A store whose points are images of all rows, each beside the one before.
#[derive(Drop)]
pub struct Whole {
    pub(crate) alloc: Global,
    pub(crate) slots: Slots,
    /// Where the valid point stands, if there is one.
    pub(crate) valid: Option<Valid>,
    /// Whether the gate of the other header reads 1.
    pub(crate) spare_open: bool,
    pub(crate) begun: Option<Point>,
    /// Where the image of these rows was written for the begun point.
    pub(crate) written: Option<Valid>,
}

impl Whole {
    /// A store without rows, on no disk yet.
    pub fn new(alloc: Global) -> Whole
        ensures rows { rows_in result ≡ [] }
        ensures room { (place : PlaceAt) → room_in result place ≡ 0 }
        ensures begun { begun_in result ≡ None }
    {
        Whole {
            alloc,
            slots: Slots::new(alloc),
            valid: None,
            spare_open: false,
            begun: None,
            written: None,
        }
    }
}

impl Store for Whole {
    ghost use Rattle.hb_disks.specs.WholeImage.{PointIs, valid_header};
    ghost use Rattle.hb_whole.specs.Store.{rows_in, room_in, begun_in, due_in, spent_in, keeps_in, staged_in, holds_in, none_due_in, few_due_in};

    ghost rows = { rows_in };

    ghost room = { room_in };

    ghost point_in = { PointIs };

    ghost header_in = { valid_header };

    ghost begun = { begun_in };

    ghost due = { due_in };

    ghost is_spent = { spent_in };

    ghost keeps = { keeps_in };

    ghost staged = { staged_in };

    ghost holds = { holds_in };

    ghost none_due = { none_due_in };

    ghost few_due = { few_due_in };

    fn row(&self, place: &Place) -> Option<&[u8]> {
        self.slots.row(place)
    }

    fn list(&self, path: &Path) -> Result<Items<Stored>, NoMemory> {
        self.slots.list(path)
    }

    fn keys(&self, space: Space, group: u16, most: u32) -> Result<Items<i64>, NoMemory> {
        self.slots.keys(space, group, most)
    }

    fn room(&mut self, changes: &[Change]) -> Result<(), NoMemory> {
        self.slots.room(changes)
    }

    fn unroom(&mut self, changes: &[Change]) {
        self.slots.unroom(changes);
    }

    fn apply(&mut self, change: Change) {
        self.slots.apply(change);
        self.written = None;
    }

    fn load<D: Disk>(&mut self, disk: &mut D, clock: &mut Clock) -> Result<Point, StoreFault> {
        self.forget();
        let found = match find(self.alloc, disk, clock) {
            Ok(found) => found,
            Err(fault) => return Err(fault),
        };
        let point = found.point;
        match self.take(found) {
            Ok(()) => Ok(point),
            Err(NoMemory) => Err(StoreFault::NoMemory),
        }
    }

    fn begin(&mut self, point: Point) -> Result<(), NoMemory> {
        self.begun = Some(point);
        self.written = None;
        Ok(())
    }

    fn flush_one<D: Disk>(
        &mut self,
        disk: &mut D,
        clock: &mut Clock,
    ) -> Result<Flushed, StoreFault> {
        if self.written.is_some() {
            return Ok(Flushed::Last);
        }
        match next_image(&self.slots, self.valid) {
            Ok(Some((next, image))) => match self.write(disk, clock, next, &image) {
                Ok(()) => Ok(Flushed::Last),
                Err(_) => Err(StoreFault::Fault),
            },
            Ok(None) => {
                self.begun = None;
                Err(StoreFault::Spent)
            }
            Err(NoMemory) => Err(StoreFault::NoMemory),
        }
    }

    fn finish<D: Disk>(&mut self, disk: &mut D, clock: &mut Clock) -> Result<Flushed, StoreFault> {
        let next = match self.written {
            Some(next) => next,
            None => return Ok(Flushed::More),
        };
        let point = match self.begun {
            Some(point) => point,
            None => return Ok(Flushed::More),
        };
        match self.make_valid(disk, clock, point, next) {
            Ok(()) => Ok(Flushed::Last),
            Err(fault) => Err(fault),
        }
    }

    fn points_are_one() {
        changes_have_one_form();
    }
}
