// A finish: the entry under X, the group in the old area, and the entry's new row where no row is left there.
ghost use Rattle.std.specs.Prelude.{◌≡◌, true, IfOk};
ghost use Rattle.hb_types.specs.Numbers.{IsNumber};
ghost use Rattle.hb_types.specs.declared.entry.Entry.TheVariants as entry;
ghost use Rattle.hb_types.specs.Places.{node_of_area};
ghost use Rattle.hb_types.specs.Records.{IsChange};
ghost use Rattle.hb_types.specs.Rows.{row_bytes, IsRow};
ghost use Rattle.hb_model.specs.Dictionary.{entry_row as entry_values};
ghost use Rattle.hb_talk.specs.Moves.{finish_plan, is_hinted};
ghost use Rattle.hb_access.specs.Accesses.{AsksSoundly, use_of, used_after, at_branch, keeps_nodes, IsServer, is_asking as access_asks, is_waiting as access_waits};
ghost use Rattle.hb_batch.specs.Batches.{entry_got, hint_of, IsSitedHint, TellsGot};
ghost use Rattle.hb_moveplan.specs.MovePlans.{coming, entry_change as change_of_entry, finish_on, finish_talks, finish_uses, finished, from_group, group_goal as goal_of_group, if_empty, if_still, is_empty as holds_none, rolls, AreSitedIn, AsksOn, FinishTold, FinishTells, Goes, GoesWith, Hears, NextIs, Stays};
ghost use Rattle.hb_moveplan.specs.declared.plan.Plan.TheVariants as plan;

use crate::found::{Found, Taken};
use hb_access::{Access, Goal, Got, Next, Usage};
use hb_batch::Hint;
use hb_dict::entry_row;
use hb_model::Reply;
use hb_planrows::entry_in_row;
use hb_types::{Answer, Bytes, Change, Entry, Mode, NoMemory, NodeName, Path, Place, Space};
use hb_writes::node_of;
use std::alloc::Global;
use std::marker::Model;

/// What a finish found.
#[derive(Clone, Copy, Debug, PartialEq, Eq)]
pub enum Finished {
    /// The entry is another.
    Other,
    /// A row is left in the old area.
    RowThere,
    Set,
}

/// What is under way.
#[derive(Clone, Copy, Debug, PartialEq, Eq)]
pub enum Part {
    /// The group's entry is locked and read.
    Entry,
    /// The group in the old area is locked and read.
    Group,
    /// The entry is written.
    Write,
}

/// A finish of a group.
pub struct Finish {
    alloc: Global,
    access: Access,
    hint: Hint,
    part: Part,
}

impl Drop for Finish {
    fn drop(self) {
        let Finish {
            alloc: _,
            access: _,
            hint: _,
            part: _,
        } = self;
    }
}

impl Model for Finish {
    ghost use Rattle.hb_batch.specs.Batches.{IsSitedHint};
    ghost use Rattle.hb_moveplan.specs.Parts.{Finishing};

    ghost Value = { Finishing };

    ghost view = { λ f. record { access = f.access; hint = f.hint; part = f.part } };

    ghost invariant = { λ f. IsSitedHint f.hint };
}

// The group in the old area, under S.
fn group_goal(hint: Hint) -> Goal
    requires { IsServer (node_of_area hint.old) }
    ensures { result ≡ goal_of_group (hint_of hint) }
{
    let space = Space {
        area: hint.old,
        table: hint.table,
    };
    Goal {
        node: node_of(hint.old),
        path: Path::Group(space, hint.group),
        mode: Mode::S,
        reads: true,
    }
}

// The row of an entry that moves no more.
fn row_at(alloc: Global, area: u16) -> Result<Bytes, NoMemory>
    ensures row { IfOk result (λ bytes. bytes ≡ row_bytes (entry_values (entry.At area))) }
    ensures sound { IfOk result IsRow }
{
    let row = entry_row(alloc, Entry::At(area))?;
    Ok(row)
}

// The change that puts the entry's row.
fn entry_change(hint: Hint, row: Bytes) -> Change
    requires row { row ≡ row_bytes (entry_values (entry.At hint.new)) }
    requires sound { IsRow row }
    ensures change { result ≡ change_of_entry (hint_of hint) }
    ensures sound { IsChange result }
{
    let space = Space { area: 0, table: 4 };
    let place = Place {
        space,
        group: hint.table,
        key: i64::from(hint.group),
    };
    Change {
        place,
        row: Some(row),
    }
}

// Whether the entry that came is the hinted one.
fn is_entry(alloc: Global, hint: Hint, got: Got) -> Result<bool, NoMemory>
    ensures { TellsGot got → IfOk result (λ yes. yes ≡ is_hinted (hint_of hint) (entry_got got)) }
{
    match got {
        Got::Row(row) => {
            let entry = entry_in_row(alloc, &row)?;
            Ok(hint.is(entry))
        }
        Got::Rows(_rows) => Ok(false),
        Got::Nothing => Ok(false),
    }
}

// Whether rows came, and none.
#[tactic(auto, using(crate::proofs::Steps::empty_told))]
fn is_empty(got: Got) -> bool
    ensures { result ≡ holds_none got }
{
    match got {
        Got::Rows(rows) => rows.is_empty(),
        Got::Row(_row) => false,
        Got::Nothing => false,
    }
}

impl Finish {
    pub(crate) fn begin(alloc: Global, usage: Usage, hint: Hint) -> Finish
        requires { IsSitedHint hint }
        ensures asking { access_asks result.access.stage ≡ true }
        ensures usage { result.access.usage ≡ usage }
        ensures talk { finish_talks result ≡ finish_plan (hint_of hint) (use_of usage) }
    {
        let access = Access::lock(usage, hint.entry_goal(Mode::X));
        Finish {
            alloc,
            access,
            hint,
            part: Part::Entry,
        }
    }

    pub(crate) fn usage(&self) -> Usage
        ensures { result ≡ self.now.access.usage }
    {
        self.access.usage()
    }

    pub(crate) fn next(&mut self) -> Next
        requires { access_asks self.old.access.stage ≡ true }
        ensures next { NextIs (plan.Finish self.old) (plan.Finish self.new) result }
        ensures tx { self.new.access.usage.tx.0 ≡ self.old.access.usage.tx.0 }
        ensures used { self.new.access.usage.used.0 ≡ used_after self.old.access.usage.used.0 result }
        ensures branch { at_branch self.old.access.usage result ≡ true }
        ensures sound { IsNumber self.old.access.usage.tx.0 → AsksSoundly result }
    {
        self.access.next()
    }

    pub(crate) fn take(&mut self, answer: Answer) -> Taken
        requires { access_waits self.old.access.stage ≡ true }
        ensures hears { FinishTold self.old.part answer → Hears (plan.Finish self.old) (plan.Finish self.new) answer result }
        ensures asking { AsksOn (plan.Finish self.new) result }
        ensures tx { self.new.access.usage.tx.0 ≡ self.old.access.usage.tx.0 }
        ensures used { keeps_nodes self.old.access.usage.used.0 self.new.access.usage.used.0 (rolls result) ≡ true }
        ensures sited { AreSitedIn result }
    {
        match self.access.take(answer) {
            hb_access::Taken::More => Taken::More,
            hb_access::Taken::Refused(reply) => Taken::Refused(reply),
            hb_access::Taken::Came(got) => self.come(got),
        }
    }

    // Goes on with what came.
    fn come(&mut self, got: Got) -> Taken
        ensures goes { FinishTells self.old.part got → GoesWith (coming finished (finish_on self.old got (finish_uses self.old))) (plan.Finish self.new) result }
        ensures stays { Stays (plan.Finish self.old) (plan.Finish self.new) result }
    {
        match self.part {
            Part::Entry => self.enter(got),
            Part::Group => self.set(is_empty(got)),
            Part::Write => Taken::Came(Found::Finished(Finished::Set)),
        }
    }

    // Goes on behind the entry, where it is the hinted one.
    fn enter(&mut self, got: Got) -> Taken
        ensures goes { TellsGot got → GoesWith (coming finished (if_still (hint_of self.old.hint) (is_hinted (hint_of self.old.hint) (entry_got got)) (finish_uses self.old))) (plan.Finish self.new) result }
        ensures stays { Stays (plan.Finish self.old) (plan.Finish self.new) result }
    {
        match is_entry(self.alloc, self.hint, got) {
            Ok(hinted) => self.enter_if(hinted),
            Err(NoMemory) => Taken::Refused(Reply::NoMemory),
        }
    }

    // Goes on where the entry is the hinted one.
    fn enter_if(&mut self, hinted: bool) -> Taken
        ensures { Goes (coming finished (if_still (hint_of self.old.hint) hinted (finish_uses self.old))) (plan.Finish self.old) (plan.Finish self.new) result }
    {
        if hinted {
            self.scan()
        } else {
            Taken::Came(Found::Finished(Finished::Other))
        }
    }

    // Reads the group in the old area.
    fn scan(&mut self) -> Taken
        ensures { Goes (coming finished (from_group (hint_of self.old.hint) (finish_uses self.old))) (plan.Finish self.old) (plan.Finish self.new) result }
    {
        let goal = group_goal(self.hint);
        self.access = Access::lock(self.access.usage(), goal);
        self.part = Part::Group;
        Taken::More
    }

    // Goes on behind the group, where no row is left in it.
    fn set(&mut self, empty: bool) -> Taken
        ensures { Goes (coming finished (if_empty (hint_of self.old.hint) empty (finish_uses self.old))) (plan.Finish self.old) (plan.Finish self.new) result }
    {
        if empty {
            self.write()
        } else {
            Taken::Came(Found::Finished(Finished::RowThere))
        }
    }

    // Writes the entry's new row.
    fn write(&mut self) -> Taken
        ensures { Goes (coming finished (if_empty (hint_of self.old.hint) true (finish_uses self.old))) (plan.Finish self.old) (plan.Finish self.new) result }
    {
        match row_at(self.alloc, self.hint.new) {
            Ok(row) => {
                let change = entry_change(self.hint, row);
                self.access = Access::write(self.access.usage(), NodeName(1), change);
                self.part = Part::Write;
                Taken::More
            }
            Err(NoMemory) => Taken::Refused(Reply::NoMemory),
        }
    }
}
