// Reads the bodies of records.
ghost use Rattle.std.specs.Prelude.{◌≡◌, ◌≤◌, ◌-◌, ℕ, IfOk, IsErrOf};
ghost use Rattle.hb_codec.specs.Reading.{Misspells};
ghost use Rattle.hb_codec.specs.Spellings.{IsBodyOf};
ghost use Rattle.hb_codec.specs.Readers.{Gives, Tells, many_in};
ghost use Rattle.hb_codec.specs.RecordReaders.{node_in, node_after, room_behind as room_of, prepare_in, commit_in, abort_in, decision_in, ids_in, tagged_in, body_in};

use crate::changes::changes_at;
use crate::fault::{CodecFault, ReadFault};
use crate::locks::locks_at;
use crate::reading::number_at;
use hb_types::{LogItem, NodeName, Number, Tx};
use sqlite_items::Items;
use std::alloc::Global;

// The greatest number of a log.
const GREATEST: u64 = 1 << 62;

// What a body has for changes, if it has no lock.
const ROOM: usize = 8_388_583;

const MOST_LOCKS: u64 = 524_286;

#[tactic(auto, unfolding(crate::specs::RecordReaders::node_in))]
fn node_at(left: usize, least: u64, bytes: &[u8]) -> Result<(NodeName, &[u8]), ReadFault>
    ensures node { Gives (λ x. (x.0, x.1.now)) result (node_in left least bytes.now) }
    ensures small { IfOk result (λ x. x.0.0 ≤ 9) }
{
    let most = 9usize.saturating_sub(left) as u64;
    let (node, rest) = number_at(0, 1, least, most, bytes)?;
    Ok((NodeName(node as u8), rest))
}

fn nodes_at(
    alloc: Global,
    count: usize,
    bytes: &[u8],
) -> Result<(Items<NodeName>, &[u8]), ReadFault>
    ensures { Gives (λ x. (x.0, x.1.now)) result (many_in node_in node_after count 1 bytes.now) }
{
    let mut nodes = Vec::with_capacity(alloc, count.min(bytes.len()))?;
    let mut left = count;
    let mut least = 1;
    let mut rest = bytes;
    while left > 0 {
        left -= 1;
        let (node, after) = node_at(left, least, rest)?;
        least = node.0 as u64 + 1;
        nodes.push(node)?;
        rest = after;
    }
    Ok((Items::from_vec(nodes), rest))
}

fn room_behind(locks: u64) -> usize
    requires { locks ≤ 524286 }
    ensures { result ≡ room_of locks }
{
    ROOM.saturating_sub(16 * locks as usize)
}

#[tactic(auto, unfolding(crate::specs::RecordReaders::prepare_in))]
fn prepare_at(alloc: Global, bytes: &[u8]) -> Result<(LogItem, &[u8]), ReadFault>
    ensures { Gives (λ x. (x.0, x.1.now)) result (prepare_in bytes.now) }
{
    let (tx, rest) = number_at(0, 8, 1, GREATEST, bytes)?;
    let (floor, rest) = number_at(0, 8, 0, GREATEST, rest)?;
    let (count, rest) = number_at(0, 4, 0, MOST_LOCKS, rest)?;
    let (locks, rest) = locks_at(alloc, count as usize, rest)?;
    let room = room_behind(count);
    let (more, rest) = number_at(0, 4, 0, room as u64 / 15, rest)?;
    let (changes, rest) = changes_at(alloc, more as usize, room, rest)?;
    let item = LogItem::Prepare {
        tx: Tx(tx),
        floor: Number(floor),
        locks,
        changes,
    };
    Ok((item, rest))
}

#[tactic(auto, unfolding(crate::specs::RecordReaders::commit_in))]
fn commit_at(bytes: &[u8]) -> Result<(LogItem, &[u8]), ReadFault>
    ensures { Gives (λ x. (x.0, x.1.now)) result (commit_in bytes.now) }
{
    let (tx, rest) = number_at(0, 8, 1, GREATEST, bytes)?;
    let (number, rest) = number_at(0, 8, 1, GREATEST, rest)?;
    let item = LogItem::Commit {
        tx: Tx(tx),
        number: Number(number),
    };
    Ok((item, rest))
}

#[tactic(auto, unfolding(crate::specs::RecordReaders::abort_in))]
fn abort_at(bytes: &[u8]) -> Result<(LogItem, &[u8]), ReadFault>
    ensures { Gives (λ x. (x.0, x.1.now)) result (abort_in bytes.now) }
{
    let (tx, rest) = number_at(0, 8, 1, GREATEST, bytes)?;
    Ok((LogItem::Abort { tx: Tx(tx) }, rest))
}

#[tactic(auto, unfolding(crate::specs::RecordReaders::decision_in))]
fn decision_at(alloc: Global, bytes: &[u8]) -> Result<(LogItem, &[u8]), ReadFault>
    ensures { Gives (λ x. (x.0, x.1.now)) result (decision_in bytes.now) }
{
    let (tx, rest) = number_at(0, 8, 1, GREATEST, bytes)?;
    let (number, rest) = number_at(0, 8, 1, GREATEST, rest)?;
    let (count, rest) = number_at(0, 1, 1, 9, rest)?;
    let (nodes, rest) = nodes_at(alloc, count as usize, rest)?;
    let item = LogItem::Decision {
        tx: Tx(tx),
        number: Number(number),
        nodes,
    };
    Ok((item, rest))
}

#[tactic(auto, unfolding(crate::specs::RecordReaders::ids_in))]
fn ids_at(bytes: &[u8]) -> Result<(LogItem, &[u8]), ReadFault>
    ensures { Gives (λ x. (x.0, x.1.now)) result (ids_in bytes.now) }
{
    let (upto, rest) = number_at(0, 8, 1, GREATEST, bytes)?;
    Ok((LogItem::Ids { upto }, rest))
}

#[tactic(auto, unfolding(crate::specs::RecordReaders::tagged_in))]
fn tagged_at(alloc: Global, tag: u64, bytes: &[u8]) -> Result<(LogItem, &[u8]), ReadFault>
    ensures { Gives (λ x. (x.0, x.1.now)) result (tagged_in tag bytes.now) }
{
    if tag == 1 {
        return prepare_at(alloc, bytes);
    }
    if tag == 2 {
        return commit_at(bytes);
    }
    if tag == 3 {
        return abort_at(bytes);
    }
    if tag == 4 {
        return decision_at(alloc, bytes);
    }
    ids_at(bytes)
}

#[tactic(auto, unfolding(crate::specs::RecordReaders::body_in))]
fn body_at(alloc: Global, bytes: &[u8]) -> Result<(LogItem, &[u8]), ReadFault>
    ensures { Gives (λ x. (x.0, x.1.now)) result (body_in bytes.now) }
{
    let (tag, rest) = number_at(0, 1, 1, 5, bytes)?;
    tagged_at(alloc, tag, rest)
}

fn item_of(alloc: Global, body: &[u8]) -> Result<LogItem, CodecFault>
    ensures { Tells body_in body.now result }
{
    match body_at(alloc, body) {
        Ok((item, rest)) => {
            if rest.len() > 0 {
                let place = body.len().saturating_sub(rest.len()) as u64;
                return Err(CodecFault::NotARecord { place });
            }
            Ok(item)
        }
        Err(ReadFault::NoMemory) => Err(CodecFault::NoMemory),
        Err(ReadFault::Left(left)) => {
            let place = body.len().saturating_sub(left) as u64;
            Err(CodecFault::NotARecord { place })
        }
    }
}

/// The item whose body the bytes are, all of them.
pub fn decode_record(alloc: Global, body: &[u8]) -> Result<LogItem, CodecFault>
    ensures item { IfOk result (λ item. IsBodyOf item body.now) }
    ensures not_a_record { (place : ℕ) → IsErrOf result (CodecFault.NotARecord place) → Misspells IsBodyOf body.now place }
{
    item_of(alloc, body)
}
