// How long the record of a vote is, and whether there is room for it.
ghost use Rattle.std.specs.Prelude.{◌≡◌, ◌+◌, ◌*◌, ◌≤◌, ◌<◌, ◌++◌, ◌∷◌, [], length, map, true, false, IfOk, IfErr, OnOk, MatchOption};
ghost use Rattle.hb_types.specs.Lists.{joined};
ghost use Rattle.hb_types.specs.Records.{HasRecord, body_bytes, change_bytes, framed as spelled};
ghost use Rattle.hb_force.specs.Lengths.{HasPlace};

use crate::refusal::Refusal;
use hb_codec::{Framed, encode_record};
use hb_types::{Change, LogItem};
use std::alloc::Global;

/// The greatest length of a log.
const GREATEST: u128 = 1 << 62;

/// The greatest length of a record's body.
const LONGEST: usize = 8_388_608;

/// The length of a change's bytes.
fn change_len(change: &Change) -> usize
    ensures { result ≡ length (change_bytes change.now) }
{
    match &change.row {
        None => 15,
        Some(row) => 17 + row.as_slice().len(),
    }
}

/// The length of the changes' bytes, unless they are too long for a body.
fn changes_len(changes: &[Change]) -> Option<usize>
    ensures { MatchOption result (8388608 < length (joined (map change_bytes changes.now))) (λ n. (n ≡ length (joined (map change_bytes changes.now))) × (n ≤ 8388608)) }
{
    let mut len = 0;
    for change in changes {
        let more = change_len(change);
        if more > LONGEST - len {
            return None;
        }
        len += more;
    }
    Some(len)
}

/// The length of a record's body, unless that is too long.
fn body_len(item: &LogItem) -> Option<usize>
    ensures { MatchOption result (8388608 < length (body_bytes item.now)) (λ n. (n ≡ length (body_bytes item.now)) × (n ≤ 8388608)) }
{
    match item {
        LogItem::Prepare { locks, changes, .. } => {
            let changes = changes_len(changes.as_slice())?;
            if locks.len() > LONGEST || 25 + 16 * locks.len() + changes > LONGEST {
                return None;
            }
            Some(25 + 16 * locks.len() + changes)
        }
        LogItem::Commit { .. } => Some(17),
        LogItem::Abort { .. } | LogItem::Ids { .. } => Some(9),
        LogItem::Decision { nodes, .. } if nodes.len() <= LONGEST - 18 => Some(18 + nodes.len()),
        LogItem::Decision { .. } => None,
    }
}

/// The bytes of the record of a vote, for which there is room behind the end of a log, with the ends of so many branches and of its own.
pub(crate) fn frame_vote(
    alloc: Global,
    end: u64,
    votes: usize,
    vote: &LogItem,
) -> Result<Framed, Refusal>
    requires { length (body_bytes vote.now) ≤ 8388608 → HasRecord vote.now }
    ensures spelled { IfOk result (λ bytes. bytes ≡ spelled vote.now ++ 0 ∷ []) }
    ensures place { OnOk result (HasPlace end votes vote.now) }
    ensures spent { IfErr result (λ refusal. refusal ≡ Refusal.Spent → HasPlace end votes vote.now → ⊥) }
{
    let Some(length) = body_len(vote) else {
        return Err(Refusal::Spent);
    };
    if end as u128 + length as u128 + 6 + 32 * (votes as u128 + 1) > GREATEST {
        return Err(Refusal::Spent);
    }
    Ok(encode_record(alloc, vote)?)
}
