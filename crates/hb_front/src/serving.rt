// A request of the front end: room for its entry first, then its answer.
ghost use Rattle.std.specs.Prelude.{◌≡◌, ◌≢◌, ◌+◌, ◌≤◌, ◌++◌, ◌∷◌, [], ℕ, Bool, true, false};
ghost use Rattle.hb_edge.specs.Causes.{Rose};
ghost use Rattle.hb_types.specs.declared.answer.Answer.TheVariants as answer;
ghost use Rattle.hb_types.specs.Calls.{IsRequest, may_pass};
ghost use Rattle.hb_runs.specs.Coordinator.{takes_none};
ghost use Rattle.hb_node.specs.Laws.{State, Images, asked_of, entry_of};
ghost use Rattle.hb_coord.specs.Law.{ends_in, faults_in, is_up_in, last_in};
ghost use Rattle.hb_coord.specs.Standing.{IsOwn};
ghost use Rattle.hb_front.specs.Fronting.{Explains, HasRoomFor, ends_nothing, idle_answer, leaves};

use crate::again::again;
use crate::front::Front;
use hb_edge::{Clock, Disk};
use hb_types::{Answer, Request, TrailEntry};

impl<D: Disk> Front<D> {
    /// Whether a request is an Abort that ends nothing.
    pub(crate) fn ends_nothing(&self, request: &Request) -> bool
        ensures { result ≡ ends_nothing self.now.coordinator.state request.now }
    {
        match request {
            Request::Abort { tx } => !self.coordinator.is_active(*tx),
            _ => false,
        }
    }

    /// What an Abort that ends nothing is answered.
    pub(crate) fn pass(&self, request: &Request) -> Answer
        requires { ends_nothing self.now.coordinator.state request.now ≡ true }
        ensures answer { result ≡ idle_answer self.now.coordinator.state }
        ensures own { IsOwn result }
        ensures passes { may_pass request.now result ≡ true }
        ensures no_fault { (area : Bool) → result ≡ answer.Fault area → ⊥ }
        ensures memory { result ≢ answer.NoMemory }
    {
        if self.coordinator.is_up() {
            Answer::Done
        } else {
            Answer::Down
        }
    }

    /// How much room there has to be before a request.
    fn wanted(&self, request: &Request) -> usize
        requires { ends_nothing self.now.coordinator.state request.now ≡ false }
        ensures enough { HasRoomFor self.now.coordinator.state request.now result }
        ensures few { result ≤ ends_in self.now.coordinator.state + 2 }
        ensures kept { takes_none request.now ≡ true → is_up_in self.now.coordinator.state ≡ true → result ≤ ends_in self.now.coordinator.state }
    {
        match request {
            Request::Begin { .. } | Request::Start => self.coordinator.ends() + 2,
            Request::Abort { .. } => self.coordinator.ends(),
            Request::Stop => 1,
            _ => self.coordinator.ends() + 1,
        }
    }

    /// Whether there is room for a request, after taking what is missing.
    pub(crate) fn has_room(&mut self, request: &Request) -> bool
        requires { ends_nothing self.old.coordinator.state request.now ≡ false }
        ensures coordinator { self.new.coordinator ≡ self.old.coordinator }
        ensures entries { self.new.trail.entries ≡ self.old.trail.entries }
        ensures kept { takes_none request.now ≡ true → is_up_in self.old.coordinator.state ≡ true → result ≡ true }
        ensures room { result ≡ true → HasRoomFor self.new.coordinator.state request.now self.new.trail.spare }
    {
        let missing = self.wanted(request).saturating_sub(self.trail.spare());
        missing == 0 || self.trail.room(missing as u32).is_ok()
    }

    /// A request that has its room.
    pub(crate) fn enter(&mut self, clock: &mut Clock, request: Request) -> Answer
        requires well_formed { IsRequest request }
        requires room { HasRoomFor self.old.coordinator.state request self.old.trail.spare }
        ensures own { IsOwn result }
        ensures entered { self.new.trail.entries ≡ self.old.trail.entries ++ entry_of request result clock.old clock.new ∷ [] }
        ensures law { (origin : State) → Explains D.content D.left D.last self.old.coordinator.state origin (asked_of self.old.trail.entries) → last_in D.last self.old.coordinator.state ≤ clock.old
            → Explains D.content D.left D.last self.new.coordinator.state origin (asked_of self.new.trail.entries) }
        ensures images { (origin : State) → Explains D.content D.left D.last self.old.coordinator.state origin (asked_of self.old.trail.entries) → last_in D.last self.old.coordinator.state ≤ clock.old
            → Images origin self.old.trail.entries self.new.trail.entries (entry_of request result clock.old clock.new) (leaves D.left self.old.coordinator.state) (leaves D.left self.new.coordinator.state) }
        ensures in_time { last_in D.last self.old.coordinator.state ≤ clock.old → last_in D.last self.new.coordinator.state ≤ clock.new }
        ensures fault { (area : Bool) → result ≡ answer.Fault area → Rose (faults_in D.faults self.old.coordinator.state) (faults_in D.faults self.new.coordinator.state) }
        ensures count { faults_in D.faults self.old.coordinator.state ≤ faults_in D.faults self.new.coordinator.state }
        ensures clock { clock.old ≤ clock.new }
        ensures memory { takes_none request ≡ true → result ≢ answer.NoMemory }
    {
        let from = clock.moment();
        let answer = self.coordinator.ask(clock, &request);
        let entered = again(self.alloc, &answer);
        self.trail.push(TrailEntry {
            caller: 0,
            nth: 0,
            request,
            answer: entered,
            from,
            to: clock.moment(),
        });
        answer
    }
}
