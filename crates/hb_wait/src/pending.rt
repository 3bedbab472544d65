// A request that is pending: one call at a time, until there is an answer.
ghost use Rattle.std.specs.Prelude.{◌≡◌};
ghost use Rattle.hb_types.specs.declared.answer.Answer.{Answer as Given};
ghost use Rattle.hb_types.specs.Calls.{IsAnswer, IsRequest, AreHolders};
ghost use Rattle.hb_types.specs.Numbers.{IsNumber};
ghost use Rattle.hb_node.specs.Lists.{OneMore, Onward};
ghost use Rattle.hb_wait.specs.Waiting.{node_asked, request_asked, heard, IsPending, IsHeard, lock_of};
ghost use Rattle.hb_wait.specs.declared.pending.Pending.TheVariants as pending;

use hb_node::Nodes;
use hb_types::{Answer, Edge, Holder, Mode, NodeName, Path, Request, Tx};
use sqlite_items::Items;

const MGR: NodeName = NodeName(10);

/// A lock that a transaction asks for at a node.
#[derive(Clone, Copy, Debug, PartialEq, Eq)]
pub struct Lock {
    pub tx: Tx,
    pub node: NodeName,
    pub path: Path,
    pub mode: Mode,
}

/// A request that is to be asked, and how far the wait of a Lock is.
#[derive(Drop)]
pub enum Pending {
    Asks(NodeName, Request),
    /// The Lock was blocked: the manager is asked for the wait next.
    Blocked(Lock, Path, Mode, Items<Holder>),
    /// The Lock waits: the manager is asked next whether it may be asked again.
    Waits(Lock),
}

/// What came of a call.
#[derive(Drop)]
pub enum Heard {
    /// The answer to the pending request.
    Answered(Answer),
    /// The Lock waits from now on, for these holders.
    Waits(Lock, Items<Edge>),
    /// There is more to be asked first.
    More(Pending),
}

impl Pending {
    /// Makes the next call.
    pub fn ask<N: Nodes>(self, nodes: &mut N) -> Heard
        requires { IsPending self }
        ensures heard { (a : Given) × IsAnswer a × OneMore (N.lists nodes.old) (N.lists nodes.new) (node_asked self) (request_asked self) a × (result ≡ heard self a) }
        ensures sound { IsHeard result }
        ensures goes { Onward N.goes nodes.old nodes.new }
    {
        match self {
            Pending::Asks(node, request) => ask_request(nodes, node, request),
            Pending::Blocked(lock, path, wanted, holders) => {
                ask_wait(nodes, lock, path, wanted, holders)
            }
            Pending::Waits(lock) => ask_ready(nodes, lock),
        }
    }
}

fn call<N: Nodes>(nodes: &mut N, node: NodeName, request: Request) -> Answer
    requires { IsRequest request }
    ensures well_formed { IsAnswer result }
    ensures one_more { OneMore (N.lists nodes.old) (N.lists nodes.new) node.0 request result }
    ensures goes { Onward N.goes nodes.old nodes.new }
{
    nodes.ask(node, request)
}

fn ask_request<N: Nodes>(nodes: &mut N, node: NodeName, request: Request) -> Heard
    requires { IsRequest request }
    ensures heard { (a : Given) × IsAnswer a × OneMore (N.lists nodes.old) (N.lists nodes.new) node.0 request a × (result ≡ heard (pending.Asks node request) a) }
    ensures sound { IsHeard result }
    ensures goes { Onward N.goes nodes.old nodes.new }
{
    match request {
        Request::Lock { tx, path, mode } => ask_lock(
            nodes,
            Lock {
                tx,
                node,
                path,
                mode,
            },
        ),
        other => Heard::Answered(call(nodes, node, other)),
    }
}

fn ask_lock<N: Nodes>(nodes: &mut N, lock: Lock) -> Heard
    requires { IsNumber lock.tx.0 }
    ensures heard { (a : Given) × IsAnswer a × OneMore (N.lists nodes.old) (N.lists nodes.new) lock.node.0 (lock_of lock) a × (result ≡ heard (pending.Asks lock.node (lock_of lock)) a) }
    ensures sound { IsHeard result }
    ensures goes { Onward N.goes nodes.old nodes.new }
{
    match call(nodes, lock.node, again(lock)) {
        Answer::Blocked {
            path,
            wanted,
            holders,
        } => Heard::More(Pending::Blocked(lock, path, wanted, holders)),
        other => Heard::Answered(other),
    }
}

fn again(lock: Lock) -> Request
    ensures { result ≡ lock_of lock }
{
    Request::Lock {
        tx: lock.tx,
        path: lock.path,
        mode: lock.mode,
    }
}

fn ask_wait<N: Nodes>(
    nodes: &mut N,
    lock: Lock,
    path: Path,
    wanted: Mode,
    holders: Items<Holder>,
) -> Heard
    requires tx { IsNumber lock.tx.0 }
    requires holders { AreHolders holders }
    ensures heard { (a : Given) × IsAnswer a × OneMore (N.lists nodes.old) (N.lists nodes.new) 10 (request_asked (pending.Blocked lock path wanted holders)) a × (result ≡ heard (pending.Blocked lock path wanted holders) a) }
    ensures sound { IsHeard result }
    ensures goes { Onward N.goes nodes.old nodes.new }
{
    let wait = Request::Wait {
        tx: lock.tx,
        node: lock.node,
        path,
        wanted,
        holders,
    };
    match call(nodes, MGR, wait) {
        Answer::Waiting(edges) => Heard::Waits(lock, edges),
        Answer::Gone => Heard::More(Pending::Asks(lock.node, again(lock))),
        Answer::Cycle(edges) => Heard::Answered(Answer::Cycle(edges)),
        Answer::NoMemory => Heard::Answered(Answer::NoMemory),
        _ => Heard::Answered(Answer::NoBranch),
    }
}

fn ask_ready<N: Nodes>(nodes: &mut N, lock: Lock) -> Heard
    requires { IsNumber lock.tx.0 }
    ensures heard { (a : Given) × IsAnswer a × OneMore (N.lists nodes.old) (N.lists nodes.new) 10 (request_asked (pending.Waits lock)) a × (result ≡ heard (pending.Waits lock) a) }
    ensures sound { IsHeard result }
    ensures goes { Onward N.goes nodes.old nodes.new }
{
    match call(nodes, MGR, Request::Ready { tx: lock.tx }) {
        Answer::NotYet { target: _ } => Heard::More(Pending::Waits(lock)),
        Answer::Ready => Heard::More(Pending::Asks(lock.node, again(lock))),
        Answer::NoMemory => Heard::Answered(Answer::NoMemory),
        _ => Heard::Answered(Answer::NoBranch),
    }
}
