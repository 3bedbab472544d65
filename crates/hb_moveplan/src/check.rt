// A check: the table of a name, and its entries.
ghost use Rattle.std.specs.Prelude.{◌≡◌, true, option_map, Ok, IfOk};
ghost use Rattle.hb_types.specs.Numbers.{IsNumber};
ghost use Rattle.hb_model.specs.Told.{table_among};
ghost use Rattle.hb_talk.specs.Moves.{check_plan};
ghost use Rattle.hb_talk.specs.Talk.{says};
ghost use Rattle.hb_access.specs.Accesses.{AsksSoundly, use_of, used_after, at_branch, keeps_nodes, is_asking as access_asks, is_waiting as access_waits};
ghost use Rattle.hb_planrows.specs.PlanRows.{TellTables};
ghost use Rattle.hb_moveplan.specs.MovePlans.{names_goal as goal_of_names, entries_goal as goal_of_entries, check_on, check_talks, check_uses, coming, from_number, from_rows, hints, hints_among, rolls, rows_got, AreSitedIn, AsksOn, CheckTold, Goes, GoesWith, Hears, NextIs, RowsTold, Stays, TellGroups};
ghost use Rattle.hb_moveplan.specs.declared.plan.Plan.TheVariants as plan;

use crate::found::{Found, Taken};
use crate::hints::hints_in;
use hb_access::{Access, Goal, Got, Next, Usage};
use hb_model::Reply;
use hb_planrows::find_table;
use hb_types::{Answer, Mode, NoMemory, NodeName, Path, Space, Stored, Text};
use std::alloc::Global;
use std::marker::Model;

/// A check of a table.
pub struct Check {
    alloc: Global,
    access: Access,
    name: Text,
    table: Option<u16>,
}

impl Drop for Check {
    fn drop(self) {
        let Check {
            alloc: _,
            access: _,
            name: _,
            table: _,
        } = self;
    }
}

impl Model for Check {
    ghost use Rattle.std.specs.Prelude.{⊤};
    ghost use Rattle.hb_moveplan.specs.Parts.{Checking};

    ghost Value = { Checking };

    ghost view = { λ c. record { access = c.access; name = c.name; table = c.table } };

    ghost invariant = { λ c. ⊤ };
}

// The rows of the tables.
fn names_goal() -> Goal
    ensures { result ≡ goal_of_names }
{
    Goal {
        node: NodeName(1),
        path: Path::Whole(Space { area: 0, table: 2 }),
        mode: Mode::S,
        reads: true,
    }
}

// The entries of a table.
fn entries_goal(table: u16) -> Goal
    ensures { result ≡ goal_of_entries table }
{
    Goal {
        node: NodeName(1),
        path: Path::Group(Space { area: 0, table: 4 }, table),
        mode: Mode::S,
        reads: true,
    }
}

// The number of the table of a name.
fn number_of(alloc: Global, rows: &[Stored], name: &Text) -> Result<Option<u16>, NoMemory>
    ensures { TellTables rows.now → IfOk result (λ n. n ≡ option_map (λ f. f.0) (table_among rows.now name.now)) }
{
    match find_table(alloc, rows, name.as_slice())? {
        Some((number, _)) => Ok(Some(number)),
        None => Ok(None),
    }
}

impl Check {
    pub(crate) fn begin(alloc: Global, usage: Usage, name: Text) -> Check
        ensures asking { access_asks result.access.stage ≡ true }
        ensures usage { result.access.usage ≡ usage }
        ensures talk { check_talks result ≡ check_plan name (use_of usage) }
    {
        let access = Access::lock(usage, names_goal());
        Check {
            alloc,
            access,
            name,
            table: None,
        }
    }

    pub(crate) fn usage(&self) -> Usage
        ensures { result ≡ self.now.access.usage }
    {
        self.access.usage()
    }

    pub(crate) fn next(&mut self) -> Next
        requires { access_asks self.old.access.stage ≡ true }
        ensures next { NextIs (plan.Check self.old) (plan.Check self.new) result }
        ensures tx { self.new.access.usage.tx.0 ≡ self.old.access.usage.tx.0 }
        ensures used { self.new.access.usage.used.0 ≡ used_after self.old.access.usage.used.0 result }
        ensures branch { at_branch self.old.access.usage result ≡ true }
        ensures sound { IsNumber self.old.access.usage.tx.0 → AsksSoundly result }
    {
        self.access.next()
    }

    pub(crate) fn take(&mut self, answer: Answer) -> Taken
        requires { access_waits self.old.access.stage ≡ true }
        ensures hears { CheckTold self.old.table answer → Hears (plan.Check self.old) (plan.Check self.new) answer result }
        ensures asking { AsksOn (plan.Check self.new) result }
        ensures tx { self.new.access.usage.tx.0 ≡ self.old.access.usage.tx.0 }
        ensures used { keeps_nodes self.old.access.usage.used.0 self.new.access.usage.used.0 (rolls result) ≡ true }
        ensures sited { AreSitedIn result }
    {
        match self.access.take(answer) {
            hb_access::Taken::More => Taken::More,
            hb_access::Taken::Refused(reply) => Taken::Refused(reply),
            hb_access::Taken::Came(got) => self.come(got),
        }
    }

    // Goes on with what came.
    fn come(&mut self, got: Got) -> Taken
        ensures goes { RowsTold self.old.table (rows_got got) → GoesWith (coming hints (check_on self.old got (check_uses self.old))) (plan.Check self.new) result }
        ensures stays { Stays (plan.Check self.old) (plan.Check self.new) result }
    {
        match got {
            Got::Rows(rows) => self.read(rows.as_slice()),
            Got::Row(_row) => self.read(&[]),
            Got::Nothing => self.read(&[]),
        }
    }

    // Goes on with the rows that came.
    fn read(&mut self, rows: &[Stored]) -> Taken
        ensures goes { RowsTold self.old.table rows.now → GoesWith (coming hints (from_rows self.old.name self.old.table rows.now (check_uses self.old))) (plan.Check self.new) result }
        ensures stays { Stays (plan.Check self.old) (plan.Check self.new) result }
    {
        match self.table {
            Some(table) => self.find(table, rows),
            None => self.enter(rows),
        }
    }

    // Finds the groups that move.
    fn find(&mut self, table: u16, rows: &[Stored]) -> Taken
        ensures goes { TellGroups rows.now → GoesWith (says (Ok (hints (hints_among table rows.now)), check_uses self.old)) (plan.Check self.new) result }
        ensures stays { Stays (plan.Check self.old) (plan.Check self.new) result }
    {
        match hints_in(self.alloc, table, rows) {
            Ok(hints) => Taken::Came(Found::Hints(hints)),
            Err(NoMemory) => Taken::Refused(Reply::NoMemory),
        }
    }

    // Goes on with the table, once the tables came.
    fn enter(&mut self, rows: &[Stored]) -> Taken
        ensures goes { TellTables rows.now → GoesWith (coming hints (from_number (option_map (λ f. f.0) (table_among rows.now self.old.name)) (check_uses self.old))) (plan.Check self.new) result }
        ensures stays { Stays (plan.Check self.old) (plan.Check self.new) result }
    {
        match number_of(self.alloc, rows, &self.name) {
            Ok(table) => self.ask_entries(table),
            Err(NoMemory) => Taken::Refused(Reply::NoMemory),
        }
    }

    // Asks for the entries of a table.
    fn ask_entries(&mut self, table: Option<u16>) -> Taken
        ensures { Goes (coming hints (from_number table (check_uses self.old))) (plan.Check self.old) (plan.Check self.new) result }
    {
        match table {
            Some(table) => {
                self.access = Access::lock(self.access.usage(), entries_goal(table));
                self.table = Some(table);
                Taken::More
            }
            None => Taken::Refused(Reply::NoTable),
        }
    }
}
