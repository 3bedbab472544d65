// A statement or a line of pdrbal is given to a session.
ghost use Rattle.std.specs.Prelude.{◌≡◌, ◌++◌, ◌<◌, Some, None, Err, IsTrue, OnOk, OnErr, IfOk, IfErr, vec_len, vec_capacity};
ghost use Rattle.hb_model.specs.Plain.{is_plain, IsPlain};
ghost use Rattle.hb_model.specs.declared.line.Work.TheVariants as work_of;
ghost use Rattle.hb_node.specs.Lists.{Lists};
ghost use Rattle.hb_caller.specs.Steps.{Gives, GivesLine};
ghost use Rattle.hb_stepper.specs.declared.fault.StepFault.TheVariants as fault_of;
ghost use Rattle.hb_stepper.specs.Adding.{Adds};
ghost use Rattle.hb_stepper.specs.Giving.{is_end as ends, work_refusal, seat_refusal, refusal as refusal_at, reply_of as reply_to, Given, GivenAt, NamedInPart, Refuses, Starts, TakesWork, given_line};
ghost use Rattle.hb_stepper.specs.Names.{Named};
ghost use Rattle.hb_stepper.specs.Running.{running};

use crate::fault::StepFault;
use crate::seat::{Seat, let_go};
use crate::sessions::Sessions;
use hb_model::{Line, Reply, Statement, Work};
use hb_types::{NoMemory, Text};
use std::alloc::Global;

fn is_end(statement: &Statement) -> bool
    ensures { result ≡ ends statement.now }
{
    matches!(statement, Statement::Commit | Statement::Rollback)
}

fn reply_of(fault: StepFault) -> Reply
    ensures { result ≡ reply_to fault }
{
    match fault {
        StepFault::Full => Reply::Full,
        StepFault::Busy => Reply::Busy,
        StepFault::InTransaction => Reply::InTransaction,
        StepFault::NoTransaction => Reply::NoTransaction,
        StepFault::NoMemory => Reply::NoMemory,
    }
}

/// The refusal of a session with nothing in progress.
fn refusal_in(work: &Work, in_transaction: bool) -> Option<StepFault>
    ensures { result ≡ work_refusal work.now in_transaction }
{
    match work {
        Work::Sql(statement) => {
            if is_end(statement) && !in_transaction {
                return Some(StepFault::NoTransaction);
            }
        }
        Work::Rebalance { .. } => {
            if in_transaction {
                return Some(StepFault::InTransaction);
            }
        }
    }
    None
}

fn copied(work: &Work, alloc: Global) -> Result<Work, NoMemory>
    ensures { IfOk result (λ copy. copy ≡ work.now) }
{
    match work {
        Work::Sql(statement) => Ok(Work::Sql(statement.copy(alloc)?)),
        Work::Rebalance { table, rows, turns } => Ok(Work::Rebalance {
            table: table.copy(alloc)?,
            rows: *rows,
            turns: *turns,
        }),
    }
}

fn not_given(work: Work, fault: StepFault) -> Result<(), StepFault>
    ensures { result ≡ Err fault }
{
    let_go(Some(work));
    Err(fault)
}

fn note_given(lines: &mut Vec<Line>, place: usize, held: bool)
    requires { vec_len lines.old < vec_capacity lines.old }
    ensures { lines.new.items ≡ lines.old.items ++ given_line place held }
{
    if held {
        lines.push_reserved(Line {
            session: Some(place as u64),
            work: None,
            reply: Reply::Given,
        });
    }
}

impl Seat {
    fn refusal(&self, work: &Work) -> Option<StepFault>
        ensures { result ≡ seat_refusal self.now work.now }
    {
        if self.busy() {
            return Some(StepFault::Busy);
        }
        refusal_in(work, self.caller.in_transaction())
    }

    /// Takes what isn't refused, and keeps its copy until it is answered.
    fn take(&mut self, work: Work, copy: Work, held: bool) -> Result<(), StepFault>
        requires plain { IsPlain work }
        requires refused { seat_refusal self.old work ≡ None }
        ensures taken { OnOk result (TakesWork self.old.caller self.new.caller work) }
        ensures work { OnOk result (self.new.work ≡ Some copy) }
        ensures held { OnOk result (self.new.held ≡ held) }
        ensures none { IfErr result (λ e. e ≡ fault_of.NoMemory) }
        ensures kept { OnErr result (self.new ≡ self.old) }
    {
        match work {
            Work::Sql(statement) => self.take_statement(statement, copy, held),
            Work::Rebalance { table, rows, turns } => {
                self.take_line(table, rows, turns, copy, held);
                Ok(())
            }
        }
    }

    fn take_statement(
        &mut self,
        statement: Statement,
        copy: Work,
        held: bool,
    ) -> Result<(), StepFault>
        requires plain { IsTrue (is_plain statement) }
        requires refused { seat_refusal self.old (work_of.Sql statement) ≡ None }
        ensures taken { OnOk result (Gives self.old.caller self.new.caller statement) }
        ensures work { OnOk result (self.new.work ≡ Some copy) }
        ensures held { OnOk result (self.new.held ≡ held) }
        ensures none { IfErr result (λ e. e ≡ fault_of.NoMemory) }
        ensures kept { OnErr result (self.new ≡ self.old) }
    {
        match self.caller.give(statement) {
            Ok(()) => {
                self.note(copy, held);
                Ok(())
            }
            Err(_) => not_given(copy, StepFault::NoMemory),
        }
    }

    fn take_line(&mut self, table: Text, rows: u32, turns: u32, copy: Work, held: bool)
        requires { seat_refusal self.old (work_of.Rebalance table rows turns) ≡ None }
        ensures taken { GivesLine self.old.caller self.new.caller table rows turns }
        ensures work { self.new.work ≡ Some copy }
        ensures held { self.new.held ≡ held }
    {
        self.caller.give_line(table, rows, turns);
        self.note(copy, held);
    }

    fn note(&mut self, work: Work, held: bool)
        ensures { self.new ≡ record self.old { work = Some work; held = held } }
    {
        let_go(std::mem::replace(&mut self.work, Some(work)));
        self.held = held;
    }
}

impl Sessions {
    fn refusal(&self, place: usize, work: &Work) -> Option<StepFault>
        ensures { result ≡ refusal_at self.now.seats.items place work.now }
    {
        match self.seats.get(place) {
            Some(seat) => seat.refusal(work),
            None => Some(StepFault::Full),
        }
    }

    /// Gives a statement or a line of pdrbal to the session of a name, to be run by steps. It is shown as given where it is held, and
    /// moves then by STEP alone. Where it is refused, the refusal's line is shown.
    pub fn give(&mut self, name: &Text, work: Work, held: bool) -> Result<(), StepFault>
        requires { IsPlain work }
        ensures given { (lists : Lists) → Given (running self.old lists) name.now work held result (running self.new lists) }
        ensures adds { Adds self.old.lines.items self.new.lines.items }
        ensures names { Adds self.old.names.items self.new.names.items }
    {
        match self.ready(name, &work) {
            Ok((place, copy)) => self.give_at(place, work, copy, held),
            Err(_) => not_given(work, StepFault::NoMemory),
        }
    }

    /// The place of a name, room for one line, and a copy of what is given.
    fn ready(&mut self, name: &Text, work: &Work) -> Result<(usize, Work), NoMemory>
        ensures named { IfOk result (λ r. (lists : Lists) → Named (running self.old lists) name.now r.0 (running self.new lists)) }
        ensures copy { IfOk result (λ r. r.1 ≡ work.now) }
        ensures room { OnOk result (vec_len self.new.lines < vec_capacity self.new.lines) }
        ensures none { OnErr result ((lists : Lists) → NamedInPart (running self.old lists) name.now (running self.new lists)) }
    {
        let place = self.room_for(name)?;
        let copy = copied(work, self.alloc)?;
        Ok((place, copy))
    }

    /// The place of a name, and room for one line.
    fn room_for(&mut self, name: &Text) -> Result<usize, NoMemory>
        ensures named { IfOk result (λ place. (lists : Lists) → Named (running self.old lists) name.now place (running self.new lists)) }
        ensures room { OnOk result (vec_len self.new.lines < vec_capacity self.new.lines) }
        ensures none { OnErr result ((lists : Lists) → NamedInPart (running self.old lists) name.now (running self.new lists)) }
    {
        let place = self.place_of(name)?;
        self.lines.reserve(1)?;
        Ok(place)
    }

    fn give_at(&mut self, place: usize, work: Work, copy: Work, held: bool) -> Result<(), StepFault>
        requires plain { IsPlain work }
        requires copy { copy ≡ work }
        requires room { vec_len self.old.lines < vec_capacity self.old.lines }
        ensures { (lists : Lists) → GivenAt (running self.old lists) place work held result (running self.new lists) }
    {
        match self.refusal(place, &work) {
            Some(fault) => self.refuse(place, work, copy, fault),
            None => self.start(place, work, copy, held),
        }
    }

    fn refuse(
        &mut self,
        place: usize,
        work: Work,
        copy: Work,
        fault: StepFault,
    ) -> Result<(), StepFault>
        requires { vec_len self.old.lines < vec_capacity self.old.lines }
        ensures fault { result ≡ Err fault }
        ensures line { (lists : Lists) → Refuses (running self.old lists) place copy fault (running self.new lists) }
    {
        self.lines.push_reserved(Line {
            session: Some(place as u64),
            work: Some(copy),
            reply: reply_of(fault),
        });
        not_given(work, fault)
    }

    fn start(&mut self, place: usize, work: Work, copy: Work, held: bool) -> Result<(), StepFault>
        requires plain { IsPlain work }
        requires refused { refusal_at self.old.seats.items place work ≡ None }
        requires copy { copy ≡ work }
        requires room { vec_len self.old.lines < vec_capacity self.old.lines }
        ensures started { OnOk result ((lists : Lists) → Starts (running self.old lists) place work held (running self.new lists)) }
        ensures none { IfErr result (λ e. e ≡ fault_of.NoMemory) }
        ensures kept { OnErr result ((lists : Lists) → running self.new lists ≡ running self.old lists) }
    {
        self.seats[place].take(work, copy, held)?;
        note_given(&mut self.lines, place, held);
        Ok(())
    }
}
