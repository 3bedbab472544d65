// A round through areas: what it asks next, and what it makes of the answer.
ghost use Rattle.std.specs.Prelude.{◌≡◌, true, drop, [], MatchOption};
ghost use Rattle.hb_types.specs.Calls.{IsAnswer};
ghost use Rattle.hb_types.specs.Lists.{Each};
ghost use Rattle.hb_types.specs.Numbers.{IsNumber};
ghost use Rattle.hb_access.specs.Accesses.{AsksSoundly, use_of, used_after, at_branch, keeps_nodes};
ghost use Rattle.hb_round.specs.Sweeps.{IsKeyed, HasNode};
ghost use Rattle.hb_round.specs.Rounds.{Begins, NextIs, Hears, Gathers, GoesOn, BringsRows, is_asking, is_waiting, rolls};

use crate::areas::area_at;
use crate::sweep::Sweep;
use hb_access::{Access, Got, Next, Usage};
use hb_model::Reply;
use hb_types::{Answer, NoMemory, Stored};
use sqlite_items::Items;
use std::alloc::Global;
use std::marker::Model;

/// What an answer made of a round.
#[derive(Drop)]
pub enum Taken {
    /// There is more to be asked.
    More,
    Came(Items<Stored>),
    Refused(Reply),
}

/// Accesses in areas, one after another, and the rows that came of them.
pub struct Round {
    alloc: Global,
    access: Access,
    sweep: Sweep,
    area: u16,
    areas: Items<u16>,
    at: usize,
    found: Items<Stored>,
}

impl Drop for Round {
    fn drop(self) {
        let Round {
            alloc: _,
            access: _,
            sweep: _,
            area: _,
            areas: _,
            at: _,
            found: _,
        } = self;
    }
}

impl Model for Round {
    ghost use Rattle.std.specs.Prelude.{drop};
    ghost use Rattle.hb_types.specs.Lists.{Each};
    ghost use Rattle.hb_round.specs.Rounds.{Rounding};
    ghost use Rattle.hb_round.specs.Sweeps.{IsKeyed, HasNode};

    ghost Value = { Rounding };

    ghost view = { λ r. record { access = r.access; sweep = r.sweep; area = r.area; areas = drop r.at r.areas; rows = r.found } };

    ghost invariant = { λ r. IsKeyed r.sweep.swept × Each HasNode (drop r.at r.areas) };
}

impl Round {
    /// A round through areas. There is none where there is no area.
    pub fn begin(alloc: Global, usage: Usage, sweep: Sweep, areas: Items<u16>) -> Option<Round>
        requires keyed { IsKeyed sweep.swept }
        requires nodes { Each HasNode areas }
        ensures { MatchOption result (areas ≡ []) (Begins usage sweep areas) }
    {
        match area_at(&areas, 0) {
            Some(area) => Some(Round {
                alloc,
                access: Access::lock(usage, sweep.goal(area)),
                sweep,
                area,
                areas,
                at: 1,
                found: Items::new(alloc),
            }),
            None => None,
        }
    }

    /// What the transaction has used.
    pub fn usage(&self) -> Usage
        ensures { result ≡ self.now.access.usage }
    {
        self.access.usage()
    }

    /// What is asked next; it is the caller's to ask it.
    pub fn next(&mut self) -> Next
        requires { is_asking self.old ≡ true }
        ensures next { NextIs self.old self.new result }
        ensures tx { self.new.access.usage.tx.0 ≡ self.old.access.usage.tx.0 }
        ensures used { self.new.access.usage.used.0 ≡ used_after self.old.access.usage.used.0 result }
        ensures branch { at_branch self.old.access.usage result ≡ true }
        ensures rows { self.new.rows ≡ self.old.rows }
        ensures sound { IsNumber self.old.access.usage.tx.0 → AsksSoundly result }
    {
        self.access.next()
    }

    /// Takes the answer to what was asked.
    pub fn take(&mut self, answer: Answer) -> Taken
        requires { is_waiting self.old ≡ true }
        ensures hears { Hears self.old self.new answer result }
        ensures tx { self.new.access.usage.tx.0 ≡ self.old.access.usage.tx.0 }
        ensures used { keeps_nodes self.old.access.usage.used.0 self.new.access.usage.used.0 (rolls result) ≡ true }
        ensures rows { IsAnswer answer → BringsRows self.old self.new result }
    {
        match self.access.take(answer) {
            hb_access::Taken::More => Taken::More,
            hb_access::Taken::Refused(reply) => Taken::Refused(reply),
            hb_access::Taken::Came(got) => self.gather(got),
        }
    }

    // Adds what came of an area, and goes on to the next.
    fn gather(&mut self, got: Got) -> Taken
        ensures { Gathers self.old self.new got result }
    {
        match self.sweep.add(self.area, got, &mut self.found) {
            Ok(()) => self.go_on(),
            Err(NoMemory) => Taken::Refused(Reply::NoMemory),
        }
    }

    fn go_on(&mut self) -> Taken
        ensures { GoesOn self.old self.new result }
    {
        match area_at(&self.areas, self.at) {
            Some(area) => {
                self.area = area;
                self.at += 1;
                self.access = Access::lock(self.access.usage(), self.sweep.goal(area));
                Taken::More
            }
            None => Taken::Came(std::mem::replace(&mut self.found, Items::new(self.alloc))),
        }
    }
}
