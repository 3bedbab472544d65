// Nodes that are asked one after another.
ghost use Rattle.std.specs.Prelude.{◌≡◌, ◌≢◌, ◌≤◌, ◌<◌, ℕ, true, false, max, Some, length, slice_get};
ghost use Rattle.hb_types.specs.declared.answer.Answer.TheVariants as answer;
ghost use Rattle.hb_types.specs.Calls.{IsRequest, IsAnswer};
ghost use Rattle.hb_node.specs.Laws.{State, entry_of};
ghost use Rattle.hb_node.specs.Lists.{AreOfNode, OneMore, Onward};
ghost use Rattle.hb_reach.specs.Told.{meanings, seen, told_of, mgr, is_stop as asks_stop, has_stopped as tells_stop};
ghost use Rattle.hb_reach.specs.Goes.{Answered, Goes, HearsOf};
ghost use Rattle.hb_reach.specs.Names.{AreNumbered};
ghost use Rattle.hb_reach.specs.declared.reach.Reach.{Reach as Reaching};

use hb_edge::Clock;
use hb_node::{Node, Nodes};
use hb_types::{Answer, NodeName, Request};

/// The manager's name.
pub const MANAGER: NodeName = NodeName(10);

/// The front end, the dictionary server and the back ends by their numbers from 0, the manager, and the clock of all their disks.
pub struct Reach<N: Node, M: Node> {
    nodes: Vec<N>,
    manager: M,
    clock: Clock,
}

fn is_stop(request: &Request) -> bool
    ensures { result ≡ asks_stop request.now }
{
    matches!(request, Request::Stop)
}

/// Whether an answer tells that its node has stopped.
fn has_stopped(stop: bool, answer: &Answer) -> bool
    ensures { result ≡ tells_stop stop answer.now }
{
    match answer {
        Answer::Fault { area: _ } => true,
        Answer::Done => stop,
        _ => false,
    }
}

impl<N: Node, M: Node> Reach<N, M> {
    /// The nodes stand by their numbers: fes1 is 0, ds is 1, and the back ends follow.
    pub fn new(nodes: Vec<N>, manager: M, clock: Clock) -> Reach<N, M>
        ensures { result ≡ record { nodes = nodes; manager = manager; clock = clock } }
    {
        Reach {
            nodes,
            manager,
            clock,
        }
    }

    pub fn into_parts(self) -> (Vec<N>, M, Clock)
        ensures { result ≡ (self.nodes, self.manager, self.clock) }
    {
        let Reach {
            nodes,
            manager,
            clock,
        } = self;
        (nodes, manager, clock)
    }

    pub fn clock(&self) -> Clock
        ensures { result ≡ self.now.clock }
    {
        self.clock
    }

    /// Goes on to a moment, if that is later.
    pub fn raise(&mut self, to: Clock)
        ensures clock { self.new.clock ≡ max self.old.clock to }
        ensures nodes { self.new.nodes ≡ self.old.nodes }
        ensures manager { self.new.manager ≡ self.old.manager }
        ensures goes { ⟦<Reach<N, M> as Nodes>⟧.goes self.old self.new }
    {
        self.clock.raise(to.moment());
    }

    /// Lets the kth device call from now on a node's log or its area disk fail, and all after it.
    pub fn arm(&mut self, node: NodeName, area: bool, k: u32)
        ensures lists { (name : ℕ) → ⟦<Reach<N, M> as Nodes>⟧.lists self.new name ≡ ⟦<Reach<N, M> as Nodes>⟧.lists self.old name }
        ensures goes { ⟦<Reach<N, M> as Nodes>⟧.goes self.old self.new }
    {
        let at = node.0 as usize;
        if at < self.nodes.len() {
            self.nodes[at].arm(area, k);
        }
    }

    fn ask_manager(&mut self, request: Request) -> Answer
        requires { IsRequest request }
        ensures well_formed { IsAnswer result }
        ensures answered { Answered (entry_of request result self.old.clock self.new.clock)
            (told_of (meanings M.named M.trail M.explains M.leaves M.last) (Some self.old.manager))
            (told_of (meanings M.named M.trail M.explains M.leaves M.last) (Some self.new.manager)) }
        ensures nodes { self.new.nodes ≡ self.old.nodes }
        ensures clock { self.old.clock ≤ self.new.clock }
    {
        self.manager.ask(&mut self.clock, request)
    }

    fn ask_server(&mut self, at: usize, request: Request) -> Answer
        requires request { IsRequest request }
        requires at { at < length self.old.nodes.items }
        ensures well_formed { IsAnswer result }
        ensures answered { Answered (entry_of request result self.old.clock self.new.clock)
            (told_of (meanings N.named N.trail N.explains N.leaves N.last) (slice_get self.old.nodes.items at))
            (told_of (meanings N.named N.trail N.explains N.leaves N.last) (slice_get self.new.nodes.items at)) }
        ensures count { length self.new.nodes.items ≡ length self.old.nodes.items }
        ensures others { (i : ℕ) → i ≢ at → slice_get self.new.nodes.items i ≡ slice_get self.old.nodes.items i }
        ensures manager { self.new.manager ≡ self.old.manager }
        ensures clock { self.old.clock ≤ self.new.clock }
    {
        self.nodes[at].ask(&mut self.clock, request)
    }

    /// Asks a node. One that stops is told to the manager at once.
    pub fn ask_node(&mut self, node: NodeName, request: Request) -> Answer
        requires { IsRequest request }
        ensures well_formed { IsAnswer result }
        ensures one_more { OneMore (⟦<Reach<N, M> as Nodes>⟧.lists self.old) (⟦<Reach<N, M> as Nodes>⟧.lists self.new) node.0 request result }
        ensures goes { ⟦<Reach<N, M> as Nodes>⟧.goes self.old self.new }

        // The manager is told of a node that stops, and else it is asked nothing.
        ensures told { node.0 ≢ mgr → tells_stop (asks_stop request) result ≡ true → HearsOf node
            (told_of (meanings M.named M.trail M.explains M.leaves M.last) (Some self.old.manager)) (told_of (meanings M.named M.trail M.explains M.leaves M.last) (Some self.new.manager)) }
        ensures quiet { node.0 ≢ mgr → tells_stop (asks_stop request) result ≡ false → self.new.manager ≡ self.old.manager }

        // A node that isn't there does nothing, and answers that it has no memory.
        ensures absent { node.0 ≢ mgr → length self.old.nodes.items ≤ node.0 → (result ≡ answer.NoMemory) }
        ensures untouched { node.0 ≢ mgr → length self.old.nodes.items ≤ node.0 → self.new ≡ self.old }
    {
        if node == MANAGER {
            return self.ask_manager(request);
        }
        let at = node.0 as usize;
        if at >= self.nodes.len() {
            return Answer::NoMemory;
        }
        let stop = is_stop(&request);
        let answer = self.ask_server(at, request);
        if has_stopped(stop, &answer) {
            self.ask_manager(Request::Halted { node });
        }
        answer
    }
}

/// A law: whatever calls were made since, the nodes are as many as they were, and stand by their numbers if they did.
pub fn nodes_stay<N: Node, M: Node>(_reach: &Reach<N, M>)
    ensures count { (from : Reaching N M) → Onward ⟦<Reach<N, M> as Nodes>⟧.goes from _reach.now → length _reach.now.nodes.items ≡ length from.nodes.items }
    ensures numbered { (from : Reaching N M) → Onward ⟦<Reach<N, M> as Nodes>⟧.goes from _reach.now → length from.nodes.items ≤ mgr → AreNumbered N.named from.nodes.items → AreNumbered N.named _reach.now.nodes.items }
{}

/// A law: where a run explains a node that stands at its number, each call in its list is answered as such a node answers.
pub fn lists_are_of_nodes<N: Node, M: Node>(_reach: &Reach<N, M>)
    ensures { (name : ℕ) (origin : State)
        → ((seen (meanings N.named N.trail N.explains N.leaves N.last) (meanings M.named M.trail M.explains M.leaves M.last) _reach.now.nodes.items _reach.now.manager _reach.now.clock).node name).named ≡ Some name
        → ((seen (meanings N.named N.trail N.explains N.leaves N.last) (meanings M.named M.trail M.explains M.leaves M.last) _reach.now.nodes.items _reach.now.manager _reach.now.clock).node name).explains origin
        → AreOfNode name (⟦<Reach<N, M> as Nodes>⟧.lists _reach.now name) }
{}

impl<N: Node, M: Node> Nodes for Reach<N, M> {
    ghost lists = { λ r name. ((seen (meanings N.named N.trail N.explains N.leaves N.last) (meanings M.named M.trail M.explains M.leaves M.last) r.nodes.items r.manager r.clock).node name).list };

    ghost goes = { λ a b. Goes
        (seen (meanings N.named N.trail N.explains N.leaves N.last) (meanings M.named M.trail M.explains M.leaves M.last) a.nodes.items a.manager a.clock)
        (seen (meanings N.named N.trail N.explains N.leaves N.last) (meanings M.named M.trail M.explains M.leaves M.last) b.nodes.items b.manager b.clock) };

    fn ask(&mut self, node: NodeName, request: Request) -> Answer {
        self.ask_node(node, request)
    }
}
