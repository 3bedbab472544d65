// A reading: what it asks next, and what it makes of the answer.
ghost use Rattle.std.specs.Prelude.{◌≡◌, true, IfSome};
ghost use Rattle.hb_types.specs.Calls.{IsAnswer};
ghost use Rattle.hb_types.specs.Numbers.{IsNumber};
ghost use Rattle.hb_access.specs.Accesses.{AsksSoundly, use_of, used_after, at_branch, keeps_nodes};
ghost use Rattle.hb_reading.specs.Aims.{HasKey, reading};
ghost use Rattle.hb_reading.specs.Routes.{IsRouted};
ghost use Rattle.hb_reading.specs.Readings.{is_asking, is_waiting, uses, now_talks, NextIs, Hears, Enters, BringsRows, GoesWith, rows_along, IsAtFirst, HasRows, IsTold, IsSitedIn, AsksOn, as_taken, rolls};

use crate::aim::Aim;
use crate::routing::{Routed, find_route};
use hb_access::{Access, Got, Next, Usage};
use hb_model::Reply;
use hb_round::Round;
use hb_types::{Answer, Entry, Stored};
use sqlite_items::Items;
use std::alloc::Global;
use std::marker::Model;

/// What is read next.
#[derive(Drop)]
pub enum Stage {
    /// The entries.
    First(Access),
    /// The rows, and for a new one the entry of its group.
    Rows(Round, Option<Entry>),
}

/// The rows that were read, and for an INSERT the entry of its group.
#[derive(Drop)]
pub struct Brought {
    pub rows: Items<Stored>,
    pub entry: Option<Entry>,
}

/// What an answer made of a reading.
#[derive(Drop)]
pub enum Taken {
    /// There is more to be asked.
    More,
    Came(Brought),
    Refused(Reply),
}

/// What a statement reads of a table.
pub struct Reading {
    alloc: Global,
    table: u16,
    aim: Aim,
    stage: Stage,
}

impl Drop for Reading {
    fn drop(self) {
        let Reading {
            alloc: _,
            table: _,
            aim: _,
            stage: _,
        } = self;
    }
}

impl Model for Reading {
    ghost use Rattle.hb_reading.specs.Aims.{HasKey};
    ghost use Rattle.hb_reading.specs.Readings.{Read, IsWithin};

    ghost Value = { Read };

    ghost view = { λ r. record { table = r.table; aim = r.aim; stage = r.stage } };

    ghost invariant = { λ r. HasKey r.aim × IsWithin r.stage };
}

// The rows that a round brought, with the entry.
fn with_entry(taken: hb_round::Taken, entry: Option<Entry>) -> Taken
    ensures { result ≡ as_taken entry taken }
{
    match taken {
        hb_round::Taken::More => Taken::More,
        hb_round::Taken::Refused(reply) => Taken::Refused(reply),
        hb_round::Taken::Came(rows) => Taken::Came(Brought { rows, entry }),
    }
}

impl Reading {
    /// Reads what the aim says of a table.
    pub fn begin(alloc: Global, usage: Usage, table: u16, aim: Aim) -> Reading
        requires { HasKey aim }
        ensures asking { is_asking result ≡ true }
        ensures usage { uses result ≡ usage }
        ensures rows { HasRows result }
        ensures talk { now_talks result ≡ reading table aim (use_of usage) }
    {
        let stage = Stage::First(Access::lock(usage, aim.first(table)));
        Reading {
            alloc,
            table,
            aim,
            stage,
        }
    }

    /// What the transaction has used.
    pub fn usage(&self) -> Usage
        ensures { result ≡ uses self.now }
    {
        match &self.stage {
            Stage::First(access) => access.usage(),
            Stage::Rows(round, _) => round.usage(),
        }
    }

    /// What is asked next; it is the caller's to ask it.
    pub fn next(&mut self) -> Next
        requires { is_asking self.old ≡ true }
        ensures next { NextIs self.old self.new result }
        ensures tx { (uses self.new).tx.0 ≡ (uses self.old).tx.0 }
        ensures used { (uses self.new).used.0 ≡ used_after (uses self.old).used.0 result }
        ensures branch { at_branch (uses self.old) result ≡ true }
        ensures rows { HasRows self.old → HasRows self.new }
        ensures sound { IsNumber (uses self.old).tx.0 → AsksSoundly result }
    {
        match &mut self.stage {
            Stage::First(access) => access.next(),
            Stage::Rows(round, _) => round.next(),
        }
    }

    /// Takes the answer to what was asked.
    pub fn take(&mut self, answer: Answer) -> Taken
        requires { is_waiting self.old ≡ true }
        ensures hears { IsTold self.old answer → Hears self.old self.new answer result }
        ensures asking { AsksOn self.new result }
        ensures tx { (uses self.new).tx.0 ≡ (uses self.old).tx.0 }
        ensures used { keeps_nodes (uses self.old).used.0 (uses self.new).used.0 (rolls result) ≡ true }
        ensures rows { HasRows self.old → IsAnswer answer → BringsRows self.new result }
        ensures sited { IsSitedIn result }
    {
        match &mut self.stage {
            Stage::First(access) => match access.take(answer) {
                hb_access::Taken::More => Taken::More,
                hb_access::Taken::Refused(reply) => Taken::Refused(reply),
                hb_access::Taken::Came(got) => self.enter(got),
            },
            Stage::Rows(round, entry) => with_entry(round.take(answer), *entry),
        }
    }

    // Goes on to the rows, by the entries that came.
    fn enter(&mut self, got: Got) -> Taken
        requires { IsAtFirst self.old.stage }
        ensures enters { Enters self.old self.new got result }
        ensures asking { AsksOn self.new result }
        ensures tx { (uses self.new).tx.0 ≡ (uses self.old).tx.0 }
        ensures used { (uses self.new).used.0 ≡ (uses self.old).used.0 }
        ensures rows { BringsRows self.new result }
        ensures sited { IsSitedIn result }
    {
        match find_route(self.alloc, self.aim, got) {
            Ok(routed) => self.begin_rows(routed),
            Err(reply) => Taken::Refused(reply),
        }
    }

    fn begin_rows(&mut self, routed: Routed) -> Taken
        requires first { IsAtFirst self.old.stage }
        requires sited { IsRouted routed }
        ensures goes { GoesWith (rows_along self.old.table self.old.aim routed (use_of (uses self.old))) self.new result }
        ensures asking { AsksOn self.new result }
        ensures tx { (uses self.new).tx.0 ≡ (uses self.old).tx.0 }
        ensures used { (uses self.new).used.0 ≡ (uses self.old).used.0 }
        ensures rows { BringsRows self.new result }
        ensures sited { IsSitedIn result }
    {
        let usage = self.usage();
        let entry = routed.entry;
        match Round::begin(self.alloc, usage, self.aim.sweep(self.table), routed.areas) {
            Some(round) => {
                self.stage = Stage::Rows(round, entry);
                Taken::More
            }
            None => Taken::Came(Brought {
                rows: Items::new(self.alloc),
                entry,
            }),
        }
    }
}
