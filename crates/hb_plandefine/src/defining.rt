// A statement of CREATE or ALTER: what it asks next, and what it makes of the answer.
ghost use Rattle.std.specs.Prelude.{◌≡◌, ◌≤◌, true, length, IfOk};
ghost use Rattle.hb_types.specs.Numbers.{IsNumber};
ghost use Rattle.hb_talk.specs.Talk.{Talk};
ghost use Rattle.hb_talk.specs.PlansDefine.{create_area_plan, create_table_plan, add_area_plan};
ghost use Rattle.hb_access.specs.Accesses.{use_of, used_after, at_branch, keeps_nodes, AsksSoundly, is_asking as access_asking, is_waiting as access_waiting};
ghost use Rattle.hb_definerows.specs.Drafts.{IsNamed};
ghost use Rattle.hb_writes.specs.Writings.{Replied, is_asking as writes_ask, is_waiting as writes_wait};
ghost use Rattle.hb_plandefine.specs.declared.stage.Stage.TheVariants as stage;
ghost use Rattle.hb_access.specs.declared.goal.Got.TheVariants as got;
ghost use Rattle.hb_plandefine.specs.Defines.{AsksMore, Goes, Hears, IsHeard, IsReady, IsWithin, StageIsWithin, NextIs, Tells, TellsGot, TellsRows, HasNoRows, follows, is_asking, is_waiting, now_hears, now_talks, rolls, usage_at, WentTo};

use crate::add_area::{area_came, entries_came, members_came, names_came};
use crate::create_area::area_rows_came;
use crate::create_table::{lock_entries, table_areas_came, table_rows_came};
use crate::stage::{Stage, Then, Went};
use crate::steps::{rows_of, write_out};
use hb_access::{Access, Got, Next, Usage};
use hb_definerows::Draft;
use hb_model::Reply;
use hb_types::{Answer, Mode, NoMemory, Stored, Text};
use hb_writes::Writing;
use std::alloc::Global;
use std::marker::Model;

/// What an answer made of a statement.
#[derive(Drop)]
pub enum Taken {
    /// There is more to be asked.
    More,
    Replied(Reply),
    Refused(Reply),
}

/// A statement of CREATE or ALTER.
pub struct Defining {
    alloc: Global,
    stage: Stage,
}

impl Drop for Defining {
    fn drop(self) {
        let Defining { alloc: _, stage: _ } = self;
    }
}

impl Model for Defining {
    ghost use Rattle.hb_plandefine.specs.declared.stage.Stage.{Stage as Standing};
    ghost use Rattle.hb_plandefine.specs.Defines.{StageIsWithin};

    ghost Value = { Standing };

    ghost view = { λ d. d.stage };

    ghost invariant = { λ d. StageIsWithin d.stage };
}

// Where a step led, or that there was no memory.
fn or_no_memory(usage: Usage, went: Result<Went, NoMemory>) -> Went
    ensures goes { (talk : Talk Replied) → IfOk went (Goes talk) → Goes talk result }
    ensures ready { IfOk went (IsReady usage) → IsReady usage result }
{
    match went {
        Ok(went) => went,
        Err(NoMemory) => Went::Refused(Reply::NoMemory, usage),
    }
}

// Goes on with rows.
fn with_rows(alloc: Global, usage: Usage, then: Then, rows: &[Stored]) -> Result<Went, NoMemory>
    requires { IsWithin then }
    ensures goes { TellsRows then rows.now → IfOk result (Goes (follows then (got.Rows rows.now) (use_of usage))) }
    ensures ready { IfOk result (IsReady usage) }
{
    match then {
        Then::NewArea(back_ends, name, node) => {
            area_rows_came(alloc, usage, back_ends, name, node, rows)
        }
        Then::NewTable(draft) => table_rows_came(alloc, usage, draft, rows),
        Then::TableAreas(tables, draft) => table_areas_came(alloc, usage, tables, draft, rows),
        Then::LockEntries(number, changes) => Ok(lock_entries(usage, number, changes)),
        Then::WriteTable(changes) => Ok(write_out(usage, changes, Reply::Created)),
        Then::Names(table, area) => names_came(alloc, usage, table, area, rows),
        Then::AreaOf(number, area) => area_came(alloc, usage, number, area, rows),
        Then::Members(number, area) => members_came(alloc, usage, number, area, rows),
        Then::Entries(number, area, members) => {
            entries_came(alloc, usage, number, area, members.as_slice(), rows)
        }
    }
}

// Goes on with a lock.
fn with_lock(usage: Usage, then: Then, got: Got) -> Went
    requires within { IsWithin then }
    requires no_rows { HasNoRows got }
    ensures goes { Goes (follows then got (use_of usage)) result }
    ensures ready { IsReady usage result }
{
    match then {
        Then::LockEntries(number, changes) => lock_entries(usage, number, changes),
        Then::WriteTable(changes) => write_out(usage, changes, Reply::Created),
        _ => Went::Refused(Reply::NoMemory, usage),
    }
}

// Goes on with what came.
fn came(alloc: Global, usage: Usage, then: Then, got: Got) -> Went
    requires { IsWithin then }
    ensures goes { TellsGot then got → Goes (follows then got (use_of usage)) result }
    ensures ready { IsReady usage result }
{
    match got {
        Got::Rows(rows) => or_no_memory(usage, with_rows(alloc, usage, then, rows.as_slice())),
        other => with_lock(usage, then, other),
    }
}

// Goes on with the answer to what was asked for.
fn asked(alloc: Global, access: Access, then: Then, answer: Answer) -> Went
    requires waiting { access_waiting access.stage ≡ true }
    requires within { IsWithin then }
    ensures goes { Tells (stage.Asking access then) answer → Goes (now_hears (stage.Asking access then) answer) result }
    ensures heard { IsHeard access.usage result }
{
    let mut access = access;
    match access.take(answer) {
        hb_access::Taken::More => Went::On(Stage::Asking(access, then)),
        hb_access::Taken::Came(got) => came(alloc, access.usage(), then, got),
        hb_access::Taken::Refused(reply) => Went::Refused(reply, access.usage()),
    }
}

// Goes on with the answer to a write.
fn wrote(writing: Writing, answer: Answer) -> Went
    requires { writes_wait writing ≡ true }
    ensures goes { Goes (now_hears (stage.Writing writing) answer) result }
    ensures heard { IsHeard writing.access.usage result }
{
    let mut writing = writing;
    match writing.take(answer) {
        hb_writes::Taken::More => Went::On(Stage::Writing(writing)),
        hb_writes::Taken::Replied(reply) => Went::Replied(reply, writing.usage()),
        hb_writes::Taken::Refused(reply) => Went::Refused(reply, writing.usage()),
    }
}

// Goes on with the answer that is awaited.
fn answered(alloc: Global, stage: Stage, answer: Answer) -> Went
    requires waiting { is_waiting stage ≡ true }
    requires within { StageIsWithin stage }
    ensures goes { Tells stage answer → Goes (now_hears stage answer) result }
    ensures heard { IsHeard (usage_at stage) result }
{
    match stage {
        Stage::Asking(access, then) => asked(alloc, access, then, answer),
        Stage::Writing(writing) => wrote(writing, answer),
        Stage::Ended(usage) => Went::Refused(Reply::NoMemory, usage),
    }
}

// What is asked next for what is under way.
fn ask_next(access: &mut Access, then: &Then) -> Next
    requires { access_asking access.old.stage ≡ true }
    ensures next { NextIs (stage.Asking access.old then.now) (stage.Asking access.new then.now) result }
    ensures tx { access.new.usage.tx.0 ≡ access.old.usage.tx.0 }
    ensures used { access.new.usage.used.0 ≡ used_after access.old.usage.used.0 result }
    ensures branch { at_branch access.old.usage result ≡ true }
    ensures sound { IsNumber access.old.usage.tx.0 → AsksSoundly result }
{
    access.next()
}

// What is asked next of the writes.
fn write_next(writing: &mut Writing) -> Next
    requires { writes_ask writing.old ≡ true }
    ensures next { NextIs (stage.Writing writing.old) (stage.Writing writing.new) result }
    ensures tx { writing.new.access.usage.tx.0 ≡ writing.old.access.usage.tx.0 }
    ensures used { writing.new.access.usage.used.0 ≡ used_after writing.old.access.usage.used.0 result }
    ensures branch { at_branch writing.old.access.usage result ≡ true }
    ensures sound { IsNumber writing.old.access.usage.tx.0 → AsksSoundly result }
{
    writing.next()
}

impl Defining {
    /// CREATE RDAREA of a name at a node, of so many back ends.
    pub fn create_area(
        alloc: Global,
        usage: Usage,
        back_ends: u8,
        name: Text,
        node: Text,
    ) -> Defining
        requires back_ends { back_ends ≤ 8 }
        requires named { length name ≤ 30 }
        ensures talk { now_talks result ≡ create_area_plan back_ends name node (use_of usage) }
        ensures asking { is_asking result ≡ true }
        ensures usage { usage_at result ≡ usage }
    {
        let access = Access::lock(usage, rows_of(1, Mode::X));
        let stage = Stage::Asking(access, Then::NewArea(back_ends, name, node));
        Defining { alloc, stage }
    }

    /// CREATE TABLE.
    pub fn create_table(alloc: Global, usage: Usage, draft: Draft) -> Defining
        requires { IsNamed draft }
        ensures talk { now_talks result ≡ create_table_plan draft.name draft.columns draft.key draft.areas (use_of usage) }
        ensures asking { is_asking result ≡ true }
        ensures usage { usage_at result ≡ usage }
    {
        let access = Access::lock(usage, rows_of(2, Mode::X));
        let stage = Stage::Asking(access, Then::NewTable(draft));
        Defining { alloc, stage }
    }

    /// ADD RDAREA of an area to a table.
    pub fn add_area(alloc: Global, usage: Usage, table: Text, area: Text) -> Defining
        ensures talk { now_talks result ≡ add_area_plan table area (use_of usage) }
        ensures asking { is_asking result ≡ true }
        ensures usage { usage_at result ≡ usage }
    {
        let access = Access::lock(usage, rows_of(2, Mode::S));
        let stage = Stage::Asking(access, Then::Names(table, area));
        Defining { alloc, stage }
    }

    /// What the transaction has used.
    pub fn usage(&self) -> Usage
        ensures { result ≡ usage_at self.now }
    {
        match &self.stage {
            Stage::Asking(access, _) => access.usage(),
            Stage::Writing(writing) => writing.usage(),
            Stage::Ended(usage) => *usage,
        }
    }

    /// What is asked next; it is the caller's to ask it.
    pub fn next(&mut self) -> Next
        requires { is_asking self.old ≡ true }
        ensures next { NextIs self.old self.new result }
        ensures tx { (usage_at self.new).tx.0 ≡ (usage_at self.old).tx.0 }
        ensures used { (usage_at self.new).used.0 ≡ used_after (usage_at self.old).used.0 result }
        ensures branch { at_branch (usage_at self.old) result ≡ true }
        ensures sound { IsNumber (usage_at self.old).tx.0 → AsksSoundly result }
    {
        match &mut self.stage {
            Stage::Asking(access, then) => ask_next(access, then),
            Stage::Writing(writing) => write_next(writing),
            Stage::Ended(_) => Next::Refused(Reply::NoMemory),
        }
    }

    // Stands where a step led.
    fn go(&mut self, went: Went) -> Taken
        requires { IsHeard (usage_at self.old) went }
        ensures went { WentTo went self.new result }
    {
        match went {
            Went::On(stage) => {
                self.stage = stage;
                Taken::More
            }
            Went::Replied(reply, usage) => {
                self.stage = Stage::Ended(usage);
                Taken::Replied(reply)
            }
            Went::Refused(reply, usage) => {
                self.stage = Stage::Ended(usage);
                Taken::Refused(reply)
            }
        }
    }

    /// Takes the answer to what was asked.
    pub fn take(&mut self, answer: Answer) -> Taken
        requires { is_waiting self.old ≡ true }
        ensures hears { Tells self.old answer → Hears self.old self.new answer result }
        ensures more { AsksMore self.new result }
        ensures tx { (usage_at self.new).tx.0 ≡ (usage_at self.old).tx.0 }
        ensures used { keeps_nodes (usage_at self.old).used.0 (usage_at self.new).used.0 (rolls result) ≡ true }
    {
        let ended = Stage::Ended(self.usage());
        let stage = std::mem::replace(&mut self.stage, ended);
        let went = answered(self.alloc, stage, answer);
        self.go(went)
    }
}
