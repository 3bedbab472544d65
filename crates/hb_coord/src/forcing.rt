// A record on its way to the coordinator's log.
ghost use Rattle.std.specs.Prelude.{◌≡◌, ◌⊎◌, ◌+◌, ◌++◌, ◌∷◌, [], ◌≤◌, ◌^◌, ℕ, List, true, false, length, is_some, IfOk, IfErr, OnOk, OnErr};
ghost use Rattle.hb_edge.specs.Causes.{HasCause};
ghost use Rattle.hb_edge.specs.Stops.{Leaves};
ghost use Rattle.hb_types.specs.declared.change.LogItem.{LogItem};
ghost use Rattle.hb_types.specs.Numbers.{IsNumber};
ghost use Rattle.hb_types.specs.Records.{HasRecord, framed as spelled, record_length};
ghost use Rattle.hb_types.specs.Calls.{AreVotes};
ghost use Rattle.hb_disks.specs.Images.{HasItems};
ghost use Rattle.hb_runs.specs.Coordinator.{nodes_of, decision_item};
ghost use Rattle.hb_coord.specs.Standing.{HasLog, IsOwn, is_quiet, is_recording};

use crate::recorded::GREATEST;
use hb_codec::{Framed, encode_record};
use hb_edge::{Clock, Disk, Failed};
use hb_log::Log;
use hb_types::{Answer, LogItem, NoMemory, NodeName, Number, Tx, Vote};
use sqlite_items::Items;
use std::alloc::{AllocError, Global};

/// Why a record isn't made.
#[derive(Clone, Copy, Debug, PartialEq, Eq)]
pub(crate) enum Refusal {
    /// The log would end past 2^62.
    Spent,
    NoMemory,
}

impl From<NoMemory> for Refusal {
    ghost use Rattle.hb_coord.specs.declared.forcing.Refusal.TheVariants as refusal;

    ghost from_gives = { λ _ e. e ≡ refusal.NoMemory };

    fn from(_: NoMemory) -> Refusal {
        Refusal::NoMemory
    }
}

impl From<AllocError> for Refusal {
    ghost use Rattle.hb_coord.specs.declared.forcing.Refusal.TheVariants as refusal;

    ghost from_gives = { λ _ e. e ≡ refusal.NoMemory };

    fn from(_: AllocError) -> Refusal {
        Refusal::NoMemory
    }
}

impl Refusal {
    pub(crate) fn answer(self) -> Answer
        ensures spent { self ≡ Refusal.Spent → result ≡ Answer.NumbersSpent }
        ensures no_memory { self ≡ Refusal.NoMemory → result ≡ Answer.NoMemory }
        ensures quiet { is_quiet result ≡ true }
        ensures own { IsOwn result }
        ensures none { is_recording result ≡ false }
    {
        match self {
            Refusal::Spent => Answer::NumbersSpent,
            Refusal::NoMemory => Answer::NoMemory,
        }
    }
}

/// The bytes of a record, for which there is room behind the end of a log.
pub(crate) fn frame(alloc: Global, end: u64, item: &LogItem) -> Result<Framed, Refusal>
    requires { HasRecord item.now }
    ensures spelled { IfOk result (λ bytes. bytes ≡ spelled item.now ++ 0 ∷ []) }
    ensures room { OnOk result (end + record_length item.now + 1 ≤ 2 ^ 62) }
    ensures fits { IfOk result (λ bytes. end + 1 + length bytes ≤ 2 ^ 62) }
    ensures spent { IfErr result (λ refusal. refusal ≡ Refusal.Spent → end + record_length item.now + 1 ≤ 2 ^ 62 → ⊥) }
{
    let framed = encode_record(alloc, item)?;
    let length = framed.as_slice().len() as u64;
    if end >= GREATEST || length > GREATEST - end - 1 {
        return Err(Refusal::Spent);
    }
    Ok(framed)
}

/// The nodes that voted.
fn nodes_in(alloc: Global, votes: &[Vote]) -> Result<Vec<NodeName>, AllocError>
    ensures { IfOk result (λ nodes. nodes.items ≡ nodes_of votes.now) }
{
    votes.iter().map(|vote| vote.node).collect(alloc)
}

/// The bytes of a decision with the nodes of the votes.
pub(crate) fn decision(
    alloc: Global,
    end: u64,
    tx: Tx,
    number: Number,
    votes: &[Vote],
) -> Result<Framed, Refusal>
    requires tx { IsNumber tx.0 }
    requires number { IsNumber number.0 }
    requires votes { AreVotes votes.now }
    ensures has_record { HasRecord (decision_item tx.0 number.0 (nodes_of votes.now)) }
    ensures spelled { IfOk result (λ bytes. bytes ≡ spelled (decision_item tx.0 number.0 (nodes_of votes.now)) ++ 0 ∷ []) }
    ensures room { OnOk result (end + record_length (decision_item tx.0 number.0 (nodes_of votes.now)) + 1 ≤ 2 ^ 62) }
    ensures fits { IfOk result (λ bytes. end + 1 + length bytes ≤ 2 ^ 62) }
    ensures spent { IfErr result (λ refusal. refusal ≡ Refusal.Spent → end + record_length (decision_item tx.0 number.0 (nodes_of votes.now)) + 1 ≤ 2 ^ 62 → ⊥) }
{
    let nodes = Items::from_vec(nodes_in(alloc, votes)?);
    frame(alloc, end, &LogItem::Decision { tx, number, nodes })
}

/// Appends a record.
pub(crate) fn append<D: Disk>(
    log: &mut Log<D>,
    clock: &mut Clock,
    framed: &Framed,
) -> Result<(), Failed>
    requires is_open { log.old.closed ≡ false }
    requires fits { log.old.end + 1 + length framed.now ≤ 2 ^ 62 }
    ensures done { OnOk result ((items : List LogItem) (item : LogItem) → HasLog D.content D.left D.last items log.old clock.old → HasRecord item → framed.now ≡ spelled item ++ 0 ∷ [] → HasLog D.content D.left D.last (items ++ item ∷ []) log.new clock.new) }
    ensures leaves { (items : List LogItem) (item : LogItem) → HasLog D.content D.left D.last items log.old clock.old → HasRecord item → framed.now ≡ spelled item ++ 0 ∷ []
        → Leaves clock.old (D.left log.old.disk) (D.left log.new.disk) (λ m image. HasItems image items ⊎ HasItems image (items ++ item ∷ [])) }
    ensures is_open { OnOk result (log.new.closed ≡ false) }
    ensures told { is_some (D.content log.new.disk) ≡ is_some (D.content log.old.disk) }
    ensures clock { (clock.old ≤ clock.new) × (clock.new ≤ clock.old + 4) }
    ensures in_time { D.last log.old.disk ≤ clock.old → D.last log.new.disk ≤ clock.new }
    ensures cause { HasCause (D.faults log.old.disk) (D.faults log.new.disk) result }
{
    match log.append(clock, framed) {
        Ok(_) => Ok(()),
        Err(_) => Err(Failed),
    }
}
