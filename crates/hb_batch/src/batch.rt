// A batch: what it asks next, and what it makes of the answer.
ghost use Rattle.std.specs.Prelude.{◌≡◌, ◌+◌, true, Some, None, All, FitsSigned, IfSome};
ghost use Rattle.std.specs.Int.{w32};
ghost use Rattle.hb_types.specs.Calls.{IsAnswer};
ghost use Rattle.hb_types.specs.Numbers.{IsNumber};
ghost use Rattle.hb_types.specs.Places.{node_of_area};
ghost use Rattle.hb_types.specs.Rows.{IsRow};
ghost use Rattle.hb_access.specs.Accesses.{AsksSoundly, use_of, used_after, at_branch, keeps_nodes};
ghost use Rattle.hb_talk.specs.Moves.{batch_plan, is_hinted};
ghost use Rattle.hb_batch.specs.Batches.{hint_of, is_asking, is_waiting, now_talks, now_uses, then_on, if_hinted, left_of, from_old, from_new, from_row, with_row, from_out, entry_got, row_got, NextIs, Hears, GoesWith, IsTold, TellsAt, TellsGot, IsGot, AsksOn, IsSitedHint, rolls, Goes, Stays};

use crate::hint::Hint;
use crate::keys::{is_entry, key_at};
use hb_access::{Access, Got, Next, Usage};
use hb_model::Reply;
use hb_types::{Answer, Bytes, Change, Mode, NoMemory};
use hb_writes::{counted_one, node_of};
use sqlite_items::Items;
use std::alloc::Global;
use std::marker::Model;

/// What is under way.
#[derive(Clone, Copy, Debug, PartialEq, Eq)]
pub enum Part {
    /// The group's entry is locked and read.
    Entry,
    /// The key is locked in the old area.
    Old,
    /// The key is locked in the new area.
    New,
    /// The key's row in the old area is read.
    Row,
    /// The row is put in the new area.
    Put,
    /// The row is taken out of the old area.
    Out,
}

/// What an answer made of a batch.
#[derive(Drop)]
pub enum Taken {
    /// There is more to be asked.
    More,
    /// So many rows are moved, or none may be since the entry is another.
    Came(Option<u32>),
    Refused(Reply),
}

/// A batch of keys of a group that moves.
pub struct Batch {
    alloc: Global,
    access: Access,
    hint: Hint,
    part: Part,
    key: i64,
    keys: Items<i64>,
    at: usize,
    moved: u32,
}

impl Drop for Batch {
    fn drop(self) {
        let Batch {
            alloc: _,
            access: _,
            hint: _,
            part: _,
            key: _,
            keys: _,
            at: _,
            moved: _,
        } = self;
    }
}

impl Model for Batch {
    ghost use Rattle.std.specs.Prelude.{drop, All, FitsSigned};
    ghost use Rattle.std.specs.Int.{w32};
    ghost use Rattle.hb_batch.specs.Batches.{Batching, IsSitedHint};

    ghost Value = { Batching };

    ghost view = { λ b. record { access = b.access; hint = b.hint; part = b.part; key = b.key; keys = drop b.at b.keys; moved = b.moved } };

    ghost invariant = { λ b. IsSitedHint b.hint × FitsSigned w32 b.key × All (FitsSigned w32) (drop b.at b.keys) };
}

impl Batch {
    /// Moves these keys, if the hinted entry stands.
    pub fn begin(alloc: Global, usage: Usage, hint: Hint, keys: Items<i64>) -> Batch
        requires sited { IsSitedHint hint }
        requires keys { All (FitsSigned w32) keys }
        ensures asking { is_asking result ≡ true }
        ensures usage { result.access.usage ≡ usage }
        ensures talk { now_talks result ≡ batch_plan (hint_of hint) keys (use_of usage) }
    {
        let access = Access::lock(usage, hint.entry_goal(Mode::S));
        Batch {
            alloc,
            access,
            hint,
            part: Part::Entry,
            key: 0,
            keys,
            at: 0,
            moved: 0,
        }
    }

    /// What the transaction has used.
    pub fn usage(&self) -> Usage
        ensures { result ≡ self.now.access.usage }
    {
        self.access.usage()
    }

    /// What is asked next; it is the caller's to ask it.
    pub fn next(&mut self) -> Next
        requires { is_asking self.old ≡ true }
        ensures next { NextIs self.old self.new result }
        ensures tx { self.new.access.usage.tx.0 ≡ self.old.access.usage.tx.0 }
        ensures used { self.new.access.usage.used.0 ≡ used_after self.old.access.usage.used.0 result }
        ensures branch { at_branch self.old.access.usage result ≡ true }
        ensures sound { IsNumber self.old.access.usage.tx.0 → AsksSoundly result }
    {
        self.access.next()
    }

    /// Takes the answer to what was asked.
    pub fn take(&mut self, answer: Answer) -> Taken
        requires waiting { is_waiting self.old ≡ true }
        requires answer { IsAnswer answer }
        ensures hears { IsTold self.old answer → Hears self.old self.new answer result }
        ensures asking { AsksOn self.new result }
        ensures tx { self.new.access.usage.tx.0 ≡ self.old.access.usage.tx.0 }
        ensures used { keeps_nodes self.old.access.usage.used.0 self.new.access.usage.used.0 (rolls result) ≡ true }
    {
        match self.access.take(answer) {
            hb_access::Taken::More => Taken::More,
            hb_access::Taken::Refused(reply) => Taken::Refused(reply),
            hb_access::Taken::Came(got) => self.come(got),
        }
    }

    // Goes on with what came.
    fn come(&mut self, got: Got) -> Taken
        requires { IsGot got }
        ensures goes { TellsAt self.old.part got → GoesWith (then_on self.old got (now_uses self.old)) self.new result }
        ensures stays { Stays self.old self.new result }
    {
        match self.part {
            Part::Entry => self.enter(got),
            Part::Old => self.lock_new(),
            Part::New => self.read_old(),
            Part::Row => self.move_row(got),
            Part::Put => self.take_out(),
            Part::Out => self.count(),
        }
    }

    // Goes on behind the entry, where it is the hinted one.
    fn enter(&mut self, got: Got) -> Taken
        ensures goes { TellsGot got → GoesWith (if_hinted (hint_of self.old.hint) self.old.keys self.old.moved (is_hinted (hint_of self.old.hint) (entry_got got)) (now_uses self.old)) self.new result }
        ensures stays { Stays self.old self.new result }
    {
        match is_entry(self.alloc, self.hint, got) {
            Ok(hinted) => self.enter_if(hinted),
            Err(NoMemory) => Taken::Refused(Reply::NoMemory),
        }
    }

    // Goes on where the entry is the hinted one.
    fn enter_if(&mut self, hinted: bool) -> Taken
        ensures { Goes (if_hinted (hint_of self.old.hint) self.old.keys self.old.moved hinted (now_uses self.old)) self.old self.new result }
    {
        if hinted {
            self.go_on()
        } else {
            Taken::Came(None)
        }
    }

    // Goes on to the next key.
    fn go_on(&mut self) -> Taken
        ensures { Goes (left_of (hint_of self.old.hint) self.old.keys self.old.moved (now_uses self.old)) self.old self.new result }
    {
        match key_at(&self.keys, self.at) {
            Some(key) => {
                self.at += 1;
                self.key = key;
                self.lock_old()
            }
            None => Taken::Came(Some(self.moved)),
        }
    }

    // Locks the key in the old area.
    fn lock_old(&mut self) -> Taken
        ensures { Goes (from_old (hint_of self.old.hint) self.old.key self.old.keys self.old.moved (now_uses self.old)) self.old self.new result }
    {
        let goal = self.hint.key_goal(self.hint.old, self.key, false);
        self.access = Access::lock(self.access.usage(), goal);
        self.part = Part::Old;
        Taken::More
    }

    // Locks the key in the new area.
    fn lock_new(&mut self) -> Taken
        ensures { Goes (from_new (hint_of self.old.hint) self.old.key self.old.keys self.old.moved (now_uses self.old)) self.old self.new result }
    {
        let goal = self.hint.key_goal(self.hint.new, self.key, false);
        self.access = Access::lock(self.access.usage(), goal);
        self.part = Part::New;
        Taken::More
    }

    // Reads the key's row in the old area.
    fn read_old(&mut self) -> Taken
        ensures { Goes (from_row (hint_of self.old.hint) self.old.key self.old.keys self.old.moved (now_uses self.old)) self.old self.new result }
    {
        let goal = self.hint.key_goal(self.hint.old, self.key, true);
        match Access::read(self.access.usage(), goal) {
            Some(access) => {
                self.access = access;
                self.part = Part::Row;
                Taken::More
            }
            None => Taken::Refused(Reply::NoMemory),
        }
    }

    // Moves a row that is there.
    fn move_row(&mut self, got: Got) -> Taken
        requires { IsGot got }
        ensures { Goes (with_row (hint_of self.old.hint) self.old.key self.old.keys self.old.moved (row_got got) (now_uses self.old)) self.old self.new result }
    {
        match got {
            Got::Row(row) => self.move_there(row),
            Got::Rows(_rows) => self.move_there(None),
            Got::Nothing => self.move_there(None),
        }
    }

    // Moves the row, or goes on where there is none.
    fn move_there(&mut self, row: Option<Bytes>) -> Taken
        requires { IfSome row IsRow }
        ensures { Goes (with_row (hint_of self.old.hint) self.old.key self.old.keys self.old.moved row (now_uses self.old)) self.old self.new result }
    {
        match row {
            Some(row) => self.put(row),
            None => self.go_on(),
        }
    }

    // Puts the row in the new area.
    fn put(&mut self, row: Bytes) -> Taken
        requires { IsRow row }
        ensures { Goes (with_row (hint_of self.old.hint) self.old.key self.old.keys self.old.moved (Some row) (now_uses self.old)) self.old self.new result }
    {
        let change = Change {
            place: self.hint.place(self.hint.new, self.key),
            row: Some(row),
        };
        match counted_one(self.access.usage(), &change) {
            Some(usage) => {
                self.access = Access::write(usage, node_of(self.hint.new), change);
                self.part = Part::Put;
                Taken::More
            }
            None => Taken::Refused(Reply::TooMuch),
        }
    }

    // Takes the row out of the old area.
    fn take_out(&mut self) -> Taken
        ensures { Goes (from_out (hint_of self.old.hint) self.old.key self.old.keys self.old.moved (now_uses self.old)) self.old self.new result }
    {
        let change = Change {
            place: self.hint.place(self.hint.old, self.key),
            row: None,
        };
        match counted_one(self.access.usage(), &change) {
            Some(usage) => {
                self.access = Access::write(usage, node_of(self.hint.old), change);
                self.part = Part::Out;
                Taken::More
            }
            None => Taken::Refused(Reply::TooMuch),
        }
    }

    // Counts a row that was moved. More than a line can tell are told as want of memory.
    fn count(&mut self) -> Taken
        ensures { Goes (left_of (hint_of self.old.hint) self.old.keys (self.old.moved + 1) (now_uses self.old)) self.old self.new result }
    {
        match self.moved.checked_add(1) {
            Some(moved) => {
                self.moved = moved;
                self.go_on()
            }
            None => Taken::Refused(Reply::NoMemory),
        }
    }
}
