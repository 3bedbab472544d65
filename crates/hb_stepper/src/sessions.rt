// The sessions of a run.
ghost use Rattle.std.specs.Prelude.{◌≡◌, ◌<◌, ◌≤◌, ◌++◌, ◌==◌, ℕ, true, false, not, filter, vec_len, vec_capacity, [], Some, None, IfOk, OnOk, OnErr};
ghost use Rattle.hb_node.specs.Lists.{Lists, Onward};
ghost use Rattle.hb_caller.specs.declared.caller.Progress.{Progress as Step};
ghost use Rattle.hb_stepper.specs.Adding.{Adds};
ghost use Rattle.hb_stepper.specs.Shown.{listed};
ghost use Rattle.hb_stepper.specs.Waiters.{waiters_after};

use crate::counts::BackEnds;
use crate::seat::Seat;
use hb_model::Line;
use hb_node::Nodes;
use hb_types::{NoMemory, Text};
use std::alloc::Global;

/// The sessions by their names, who of them waits, and the lines so far.
pub struct Sessions {
    pub(crate) alloc: Global,
    pub(crate) back_ends: BackEnds,
    pub(crate) names: Vec<Text>,
    pub(crate) seats: Vec<Seat>,
    pub(crate) waiters: Vec<usize>,
    pub(crate) lines: Vec<Line>,
}

impl Drop for Sessions {
    fn drop(self) {
        let Sessions {
            alloc: _,
            back_ends: _,
            names: _,
            seats: _,
            waiters: _,
            lines: _,
        } = self;
    }
}

impl Sessions {
    ghost use Rattle.hb_stepper.specs.Running.{running, seat_is, askable, busy as is_in_progress, going as can_go_on, asked as is_asked};
    ghost use Rattle.hb_stepper.specs.Finishing.{RanOut};
    ghost use Rattle.hb_stepper.specs.Steps.{OneStep, Made, Ran, Asked, IsReady, Resumed};

    /// No name was seen yet.
    pub fn new(alloc: Global, back_ends: BackEnds) -> Sessions
        ensures { (lists : Lists) → running result lists ≡ record { names = []; seats = []; waiters = []; lines = []; lists = lists } }
    {
        Sessions {
            alloc,
            back_ends,
            names: Vec::new(alloc),
            seats: Vec::new(alloc),
            waiters: Vec::new(alloc),
            lines: Vec::new(alloc),
        }
    }

    /// The names of the sessions, by their first appearance.
    pub fn names(&self) -> &[Text]
        ensures { result.now ≡ self.now.names.items }
    {
        self.names.as_slice()
    }

    /// The lines so far.
    pub fn transcript(&self) -> &[Line]
        ensures { result.now ≡ self.now.lines.items }
    {
        self.lines.as_slice()
    }

    /// The session at a place, with a statement or a line in progress, asks one request.
    pub(crate) fn step<N: Nodes>(&mut self, nodes: &mut N, place: usize) -> Result<(), NoMemory>
        requires { seat_is is_in_progress self.old.seats.items place ≡ true }
        ensures made { OnOk result ((shows : Step) × OneStep (running self.old (N.lists nodes.old)) (running self.new (N.lists nodes.new)) place shows) }
        ensures none { OnErr result (running self.new (N.lists nodes.new) ≡ running self.old (N.lists nodes.old)) }
        ensures goes { Onward N.goes nodes.old nodes.new }
    {
        self.lines.reserve(1)?;
        self.waiters.reserve(1)?;
        let was = self.seats[place].waits();
        let line = self.seats[place].step(nodes, place);
        let waits = self.seats[place].waits();
        note_wait(&mut self.waiters, place, was, waits);
        note_line(&mut self.lines, line);
        Ok(())
    }

    pub(crate) fn is_busy(&self, place: usize) -> bool
        ensures { result ≡ seat_is is_in_progress self.now.seats.items place }
    {
        match self.seats.get(place) {
            Some(seat) => seat.busy(),
            None => false,
        }
    }

    pub(crate) fn is_going(&self, place: usize) -> bool
        ensures { result ≡ seat_is can_go_on self.now.seats.items place }
    {
        match self.seats.get(place) {
            Some(seat) => seat.going(),
            None => false,
        }
    }

    pub(crate) fn is_asked(&self, place: usize) -> bool
        ensures { result ≡ seat_is is_asked self.now.seats.items place }
    {
        match self.seats.get(place) {
            Some(seat) => seat.asked(),
            None => false,
        }
    }

    /// Runs a session on, at most so many steps; fewer where it comes to its end or to a wait.
    pub(crate) fn run<N: Nodes>(
        &mut self,
        nodes: &mut N,
        place: usize,
        most: u64,
    ) -> Result<u64, NoMemory>
        requires { seat_is is_in_progress self.old.seats.items place ≡ true }
        ensures ran { IfOk result (λ k. Ran place (running self.old (N.lists nodes.old)) k (running self.new (N.lists nodes.new))) }
        ensures most { IfOk result (λ k. k ≤ most) }
        ensures some { IfOk result (λ k. 0 < most → 0 < k) }
        ensures fewer { IfOk result (λ k. k < most → seat_is can_go_on self.new.seats.items place ≡ false) }
        ensures part { Made (running self.old (N.lists nodes.old)) (running self.new (N.lists nodes.new)) }
        ensures goes { Onward N.goes nodes.old nodes.new }
    {
        'steps: for made in 0..most {
            self.step(nodes, place)?;
            if !self.is_going(place) {
                return Ok(made + 1);
            }
        }
        Ok(most)
    }

    /// Asks the waiting sessions that are asked in turn, up to the first that waits no more.
    fn first_ready<N: Nodes>(&mut self, nodes: &mut N) -> Result<Option<usize>, NoMemory>
        ensures none { IfOk result (λ found. found ≡ None → Asked (running self.old (N.lists nodes.old)) (askable (running self.old (N.lists nodes.old))) (running self.new (N.lists nodes.new))) }
        ensures some { IfOk result (λ found. (place : ℕ) → found ≡ Some place → IsReady (running self.old (N.lists nodes.old)) place (running self.new (N.lists nodes.new))) }
        ensures part { Made (running self.old (N.lists nodes.old)) (running self.new (N.lists nodes.new)) }
        ensures goes { Onward N.goes nodes.old nodes.new }
    {
        'turn: for nth in 0..self.waiters.len() {
            let place = self.waiters[nth];
            if self.is_asked(place) {
                self.step(nodes, place)?;
                if !self.is_asked(place) {
                    return Ok(Some(place));
                }
            }
        }
        Ok(None)
    }

    /// Runs the session at a place to the end of its statement or line, or to a wait, if it can go on.
    pub(crate) fn run_out<N: Nodes>(&mut self, nodes: &mut N, place: usize) -> Result<(), NoMemory>
        ensures ran { OnOk result (RanOut (running self.old (N.lists nodes.old)) place (running self.new (N.lists nodes.new))) }
        ensures part { Made (running self.old (N.lists nodes.old)) (running self.new (N.lists nodes.new)) }
        ensures goes { Onward N.goes nodes.old nodes.new }
    {
        if !self.is_going(place) {
            return Ok(());
        }
        self.run(nodes, place, u64::MAX)?;
        if self.is_going(place) {
            return Err(NoMemory);
        }
        Ok(())
    }

    /// Asks the waiting sessions that aren't held in the order in which their waits began; the first that waits no more runs to its
    /// end or its next wait; and so on until each was asked and waits on.
    pub fn resume_waiting<N: Nodes>(&mut self, nodes: &mut N) -> Result<(), NoMemory>
        ensures resumed { OnOk result (Resumed (running self.old (N.lists nodes.old)) (running self.new (N.lists nodes.new))) }
        ensures part { Made (running self.old (N.lists nodes.old)) (running self.new (N.lists nodes.new)) }
        ensures adds { Adds self.old.lines.items self.new.lines.items }
        ensures names { Adds self.old.names.items self.new.names.items }
        ensures goes { Onward N.goes nodes.old nodes.new }
    {
        'rounds: for _ in 0..u64::MAX {
            match self.first_ready(nodes)? {
                None => return Ok(()),
                Some(place) => self.run_out(nodes, place)?,
            }
        }
        Err(NoMemory)
    }
}

/// Puts the one whose wait begins last, and takes out the one whose wait is over.
fn note_wait(waiters: &mut Vec<usize>, place: usize, was: bool, waits: bool)
    requires { vec_len waiters.old < vec_capacity waiters.old }
    ensures { waiters.new.items ≡ waiters_after waiters.old.items place was waits }
{
    match (was, waits) {
        (false, true) => waiters.push_reserved(place),
        (true, false) => take_out(waiters, place),
        _ => {}
    }
}

pub(crate) fn take_out(waiters: &mut Vec<usize>, place: usize)
    ensures { waiters.new.items ≡ filter (λ w. not (w == place)) waiters.old.items }
{
    waiters.retain(|w| *w != place);
}

fn note_line(lines: &mut Vec<Line>, line: Option<Line>)
    requires { vec_len lines.old < vec_capacity lines.old }
    ensures { lines.new.items ≡ lines.old.items ++ listed line }
{
    if let Some(line) = line {
        lines.push_reserved(line);
    }
}
