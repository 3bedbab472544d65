// Settling a branch by its outcome.
ghost use Rattle.std.specs.Prelude.{◌≡◌};
ghost use Rattle.hb_types.specs.Numbers.{IsNumber};
ghost use Rattle.hb_commit.specs.Resolving.{resolving, committed_at, rolled_back_at, Followed};

use hb_node::Nodes;
use hb_types::{Answer, NodeName, Number, Request, Tx};

const FES1: NodeName = NodeName(0);

/// What became of a branch that had voted.
#[derive(Clone, Copy, Debug, PartialEq, Eq)]
pub enum Resolved {
    Committed(Number),
    RolledBack,
    /// Its transaction hasn't ended: the branch stays.
    Still,
    Down(NodeName),
    Stopped(NodeName),
    /// Nothing is known: it is asked again later.
    NoMemory,
}

/// Settles the transaction's branch at a node by what the coordinator says of it.
pub fn resolve<N: Nodes>(nodes: &mut N, tx: Tx, at: NodeName) -> Resolved
    requires { IsNumber tx.0 }
    ensures { Followed (resolving tx at) (N.lists nodes.old) (N.lists nodes.new) result }
{
    match nodes.ask(FES1, Request::Outcome { tx }) {
        Answer::Decided(number) => commit(nodes, tx, number, at),
        Answer::Aborted => roll_back(nodes, tx, at),
        Answer::Active => Resolved::Still,
        Answer::Down => Resolved::Down(FES1),
        _ => Resolved::NoMemory,
    }
}

fn commit<N: Nodes>(nodes: &mut N, tx: Tx, number: Number, at: NodeName) -> Resolved
    requires tx { IsNumber tx.0 }
    requires number { IsNumber number.0 }
    ensures { Followed (committed_at tx number at) (N.lists nodes.old) (N.lists nodes.new) result }
{
    match nodes.ask(at, Request::Commit { tx, number }) {
        Answer::Down => Resolved::Down(at),
        Answer::Fault { area: _ } => Resolved::Stopped(at),
        _ => Resolved::Committed(number),
    }
}

fn roll_back<N: Nodes>(nodes: &mut N, tx: Tx, at: NodeName) -> Resolved
    requires { IsNumber tx.0 }
    ensures { Followed (rolled_back_at tx at) (N.lists nodes.old) (N.lists nodes.new) result }
{
    match nodes.ask(at, Request::Rollback { tx }) {
        Answer::Down => Resolved::Down(at),
        Answer::Fault { area: _ } => Resolved::Stopped(at),
        _ => Resolved::RolledBack,
    }
}
