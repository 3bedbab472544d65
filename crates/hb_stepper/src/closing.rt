// The end of a script.
ghost use Rattle.std.specs.Prelude.{◌≡◌, ℕ, true, false, length, OnOk};
ghost use Rattle.hb_node.specs.Lists.{Lists, Onward};
ghost use Rattle.hb_stepper.specs.Adding.{Adds};
ghost use Rattle.hb_stepper.specs.Closing.{InTurn, RunsOn, GivesUp, IsClosed, Closed, SeatGivesUp};
ghost use Rattle.hb_stepper.specs.Running.{running, seat_is, going, open_now};
ghost use Rattle.hb_stepper.specs.Steps.{Made};
ghost use Rattle.hb_stepper.specs.Waiters.{waiters_after};

use crate::seat::Seat;
use crate::sessions::{Sessions, take_out};
use hb_node::Nodes;
use hb_types::NoMemory;

impl Seat {
    /// Gives up what waits, or its transaction where it is between two statements.
    fn give_up(&mut self)
        requires open { open_now self.old ≡ true }
        requires stopped { going self.old ≡ false }
        ensures { SeatGivesUp self.old self.new }
    {
        if self.waits() {
            self.caller.abandon();
        } else {
            self.caller.close();
        }
    }
}

/// Takes out one that waited.
fn note_given_up(waiters: &mut Vec<usize>, place: usize, waited: bool)
    ensures { waiters.new.items ≡ waiters_after waiters.old.items place waited false }
{
    if waited {
        take_out(waiters, place);
    }
}

impl Sessions {
    /// The end of a script: each session that can go on runs to the end of its statement or line, or to a wait, and those that wait are
    /// asked as after each line; then each that has a transaction, or something in progress, is rolled back.
    pub fn close_all<N: Nodes>(&mut self, nodes: &mut N) -> Result<(), NoMemory>
        ensures closed { OnOk result (Closed (running self.old (N.lists nodes.old)) (running self.new (N.lists nodes.new))) }
        ensures adds { Adds self.old.lines.items self.new.lines.items }
        ensures names { Adds self.old.names.items self.new.names.items }
        ensures goes { Onward N.goes nodes.old nodes.new }
    {
        self.run_all(nodes)?;
        self.roll_all_back(nodes)?;
        Ok(())
    }

    /// Runs each session on that can go on.
    fn run_all<N: Nodes>(&mut self, nodes: &mut N) -> Result<(), NoMemory>
        ensures ran { OnOk result (InTurn RunsOn (running self.old (N.lists nodes.old)) (length self.old.seats.items) (running self.new (N.lists nodes.new))) }
        ensures stopped { OnOk result ((place : ℕ) → seat_is going self.new.seats.items place ≡ false) }
        ensures part { Made (running self.old (N.lists nodes.old)) (running self.new (N.lists nodes.new)) }
        ensures goes { Onward N.goes nodes.old nodes.new }
    {
        'places: for place in 0..self.seats.len() {
            self.run_on(nodes, place)?;
        }
        Ok(())
    }

    fn run_on<N: Nodes>(&mut self, nodes: &mut N, place: usize) -> Result<(), NoMemory>
        ensures ran { OnOk result (RunsOn (running self.old (N.lists nodes.old)) place (running self.new (N.lists nodes.new))) }
        ensures part { Made (running self.old (N.lists nodes.old)) (running self.new (N.lists nodes.new)) }
        ensures goes { Onward N.goes nodes.old nodes.new }
    {
        if !self.is_going(place) {
            return Ok(());
        }
        self.run_out(nodes, place)?;
        self.resume_waiting(nodes)?;
        Ok(())
    }

    /// Rolls back each session that has a transaction, or something in progress.
    fn roll_all_back<N: Nodes>(&mut self, nodes: &mut N) -> Result<(), NoMemory>
        requires { (place : ℕ) → seat_is going self.old.seats.items place ≡ false }
        ensures closed { OnOk result (InTurn IsClosed (running self.old (N.lists nodes.old)) (length self.old.seats.items) (running self.new (N.lists nodes.new))) }
        ensures over { OnOk result ((place : ℕ) → seat_is open_now self.new.seats.items place ≡ false) }
        ensures adds { Adds self.old.lines.items self.new.lines.items }
        ensures names { Adds self.old.names.items self.new.names.items }
        ensures goes { Onward N.goes nodes.old nodes.new }
    {
        'places: for place in 0..self.seats.len() {
            self.roll_back(nodes, place)?;
        }
        Ok(())
    }

    fn roll_back<N: Nodes>(&mut self, nodes: &mut N, place: usize) -> Result<(), NoMemory>
        requires { seat_is going self.old.seats.items place ≡ false }
        ensures closed { OnOk result (IsClosed (running self.old (N.lists nodes.old)) place (running self.new (N.lists nodes.new))) }
        ensures adds { Adds self.old.lines.items self.new.lines.items }
        ensures names { Adds self.old.names.items self.new.names.items }
        ensures goes { Onward N.goes nodes.old nodes.new }
    {
        if !self.is_open(place) {
            return Ok(());
        }
        self.give_up(place);
        self.run_out(nodes, place)?;
        Ok(())
    }

    /// Gives up what the session at a place waits with, or its transaction.
    fn give_up(&mut self, place: usize)
        requires open { seat_is open_now self.old.seats.items place ≡ true }
        requires stopped { seat_is going self.old.seats.items place ≡ false }
        ensures { (lists : Lists) → GivesUp (running self.old lists) place (running self.new lists) }
    {
        let waited = self.seats[place].waits();
        self.seats[place].give_up();
        note_given_up(&mut self.waiters, place, waited);
    }

    fn is_open(&self, place: usize) -> bool
        ensures { result ≡ seat_is open_now self.now.seats.items place }
    {
        match self.seats.get(place) {
            Some(seat) => seat.is_open(),
            None => false,
        }
    }
}
