// A session at its place.
ghost use Rattle.std.specs.Prelude.{◌≡◌, true, Option, Some, None};
ghost use Rattle.hb_node.specs.Lists.{Onward};
ghost use Rattle.hb_caller.specs.declared.caller.Progress.{Progress as Step};
ghost use Rattle.hb_stepper.specs.Shown.{listed};

use hb_caller::{Caller, Progress};
use hb_model::{Line, Reply, Work};
use hb_node::Nodes;

/// A session and the line of pdrbal that it may run, with what was given to it and isn't answered yet.
pub struct Seat {
    pub caller: Caller,
    pub work: Option<Work>,
    /// It moves by STEP alone.
    pub held: bool,
}

impl Drop for Seat {
    fn drop(self) {
        let Seat {
            caller: _,
            work,
            held: _,
        } = self;
        let_go(work);
    }
}

/// What was given is over.
pub(crate) fn let_go(work: Option<Work>) {
    let _ = work;
}

impl Seat {
    ghost use Rattle.std.specs.Prelude.{◌≡◌, true, ◌∷◌};
    ghost use Rattle.hb_caller.specs.Calling.{busy as is_busy};
    ghost use Rattle.hb_stepper.specs.Steps.{SeatSteps, lines_of, unanswered, line_of};
    ghost use Rattle.hb_stepper.specs.Running.{busy as is_in_progress, waits as is_waiting, going as can_go_on, asked as is_asked, open_now as has_open};

    /// The session asks one request; the line that it shows.
    pub(crate) fn step<N: Nodes>(&mut self, nodes: &mut N, place: usize) -> Option<Line>
        requires { is_busy self.old.caller ≡ true }
        ensures steps { (shows : Step) × SeatSteps self.old self.new (N.lists nodes.old) (N.lists nodes.new) shows × (listed result ≡ lines_of place self.old.work shows) }
        ensures goes { Onward N.goes nodes.old nodes.new }
    {
        let shows = self.caller.step(nodes);
        self.answered(place, shows)
    }

    fn answered(&mut self, place: usize, shows: Progress) -> Option<Line>
        ensures line { listed result ≡ lines_of place self.old.work shows }
        ensures work { self.new.work ≡ unanswered self.old.work shows }
        ensures caller { self.new.caller ≡ self.old.caller }
        ensures held { self.new.held ≡ self.old.held }
    {
        match shows {
            Progress::More => None,
            Progress::Waits(edges) => Some(Line {
                session: Some(place as u64),
                work: None,
                reply: Reply::Waits(edges),
            }),
            Progress::Told(reply) => Some(Line {
                session: Some(place as u64),
                work: None,
                reply,
            }),
            Progress::Shown(reply) => Some(self.line(place, reply)),
            Progress::Ended(reply) => Some(self.line(place, reply)),
        }
    }

    fn line(&mut self, place: usize, reply: Reply) -> Line
        ensures line { result ≡ line_of place self.old.work reply }
        ensures work { self.new.work ≡ None }
        ensures caller { self.new.caller ≡ self.old.caller }
        ensures held { self.new.held ≡ self.old.held }
    {
        Line {
            session: Some(place as u64),
            work: self.work.take(),
            reply,
        }
    }

    /// Whether a statement or a line of pdrbal is in progress.
    pub(crate) fn busy(&self) -> bool
        ensures { result ≡ is_in_progress self.now }
    {
        self.caller.busy()
    }

    pub(crate) fn waits(&self) -> bool
        ensures { result ≡ is_waiting self.now }
    {
        self.caller.waiting()
    }

    /// Whether it can go on.
    pub(crate) fn going(&self) -> bool
        ensures { result ≡ can_go_on self.now }
    {
        self.busy() && !self.waits()
    }

    /// Whether it waits, and is asked after each line.
    pub(crate) fn asked(&self) -> bool
        ensures { result ≡ is_asked self.now }
    {
        self.busy() && self.waits() && !self.held
    }

    /// Whether it has a transaction, or something in progress.
    pub(crate) fn is_open(&self) -> bool
        ensures { result ≡ has_open self.now }
    {
        self.busy() || self.caller.in_transaction()
    }
}
