// How a transaction ended.
ghost use Rattle.std.specs.Prelude.{◌≡◌};
ghost use Rattle.hb_commit.specs.Driving.{Replies, reply_to};
ghost use Rattle.hb_talk.specs.Ends.{end_refusal};

use hb_types::{Answer, NodeName, Number};

/// How a transaction ended. All but `Committed`, `RolledBack` and `Unknown` say why it was rolled back.
#[derive(Clone, Copy, Debug, PartialEq, Eq)]
pub enum Outcome {
    Committed(Number),
    RolledBack,
    Down(NodeName),
    Stopped(NodeName),
    Lost(NodeName),
    /// The coordinator's disk failed in the decision: whether it stands is told later.
    Unknown,
    Spent,
    NoMemory,
}

/// Why a transaction is rolled back where a node gave this answer instead of the one that was asked for.
pub fn refusal(node: NodeName, answer: &Answer) -> Outcome
    ensures { (replies : Replies) → reply_to replies result ≡ end_refusal node.0 answer.now }
{
    match answer {
        Answer::Down => Outcome::Down(node),
        Answer::Fault { area: _ } => Outcome::Stopped(node),
        Answer::NumbersSpent => Outcome::Spent,
        Answer::NoMemory => Outcome::NoMemory,
        _ => Outcome::Lost(node),
    }
}
