// Reads changes.
ghost use Rattle.std.specs.Prelude.{◌≡◌, ◌≤◌, ℕ, IfOk, IsErrOf, length};
ghost use Rattle.hb_types.specs.declared.change.Change.{Change};
ghost use Rattle.hb_types.specs.Records.{change_bytes};
ghost use Rattle.hb_codec.specs.Reading.{Finds, Misreads};
ghost use Rattle.hb_codec.specs.Spellings.{IsChangeOf};
ghost use Rattle.hb_codec.specs.Readers.{Gives, TellsFront, byte_in, many_in};
ghost use Rattle.hb_codec.specs.ChangeReaders.{pages as pages_of, length_fits, row_length_in, row_bytes_in, some_row_in, row_part_in, change_in, slot_after as slot_behind, whole_slot};

use crate::fault::{CodecFault, ReadFault};
use crate::places::{LAST_PLACE, place_at, place_rank};
use crate::reading::number_at;
use crate::rows::skip_row;
use hb_types::{Bytes, Change};
use sqlite_items::Items;
use std::alloc::Global;

// The least rank of the next place, and how many bytes are left.
#[derive(Clone, Copy, Debug, PartialEq, Eq)]
pub(crate) struct Slot {
    pub least: u128,
    pub room: usize,
}

// A row has 2 bytes, or from 4 on.
fn pages(byte: u64) -> u64
    ensures { result ≡ pages_of byte }
{
    if byte >= 4 || byte == 2 { 0 } else { 1 }
}

fn first_of_length(high: u64, bytes: &[u8]) -> Result<(u64, &[u8]), ReadFault>
    ensures byte { Gives (λ x. (x.0, x.1.now)) result (byte_in (length_fits high) bytes.now) }
    ensures below { IfOk result (λ x. x.0 ≤ high) }
    ensures small { IfOk result (λ x. x.0 ≤ 255) }
{
    if bytes.len() < 1 {
        return Err(ReadFault::Left(0));
    }
    let byte = bytes[0] as u64;
    if byte + 256 * pages(byte) > high {
        return Err(ReadFault::Left(bytes.len()));
    }
    let (_, rest) = bytes.split_at(1);
    Ok((byte, rest))
}

#[tactic(auto, unfolding(crate::specs::ChangeReaders::row_length_in))]
fn row_length_at(high: u64, bytes: &[u8]) -> Result<(u64, &[u8]), ReadFault>
    requires { high ≤ 4000 }
    ensures number { Gives (λ x. (x.0, x.1.now)) result (row_length_in high bytes.now) }
    ensures within { IfOk result (λ x. x.0 ≤ high) }
{
    let (low, rest) = first_of_length(high, bytes)?;
    let (top, rest) = number_at(0, 1, pages(low), (high - low) / 256, rest)?;
    Ok((low + 256 * top, rest))
}

// The bytes of a row of this length.
#[tactic(auto, unfolding(crate::specs::ChangeReaders::row_bytes_in))]
fn row_bytes_at(len: usize, bytes: &[u8]) -> Result<(&[u8], &[u8]), ReadFault>
    requires { len ≤ 65537 }
    ensures { Gives (λ x. (x.0.now, x.1.now)) result (row_bytes_in len bytes.now) }
{
    let rest = skip_row(len, len, bytes)?;
    let used = bytes.len().saturating_sub(rest.len());
    let (row, _) = bytes.split_at(used);
    Ok((row, rest))
}

#[tactic(auto, unfolding(crate::specs::ChangeReaders::some_row_in))]
fn some_row_at(
    alloc: Global,
    room: usize,
    bytes: &[u8],
) -> Result<(Option<Bytes>, &[u8]), ReadFault>
    ensures { Gives (λ x. (x.0, x.1.now)) result (some_row_in room bytes.now) }
{
    let high = room.saturating_sub(3).min(4000) as u64;
    let (len, rest) = row_length_at(high, bytes)?;
    let (row, rest) = row_bytes_at(len as usize, rest)?;
    let row = Bytes::new(Vec::from_slice(alloc, row)?);
    Ok((Some(row), rest))
}

// A row or none, in so many bytes at most.
#[tactic(auto, unfolding(crate::specs::ChangeReaders::row_part_in))]
fn row_part_at(
    alloc: Global,
    room: usize,
    bytes: &[u8],
) -> Result<(Option<Bytes>, &[u8]), ReadFault>
    ensures { Gives (λ x. (x.0, x.1.now)) result (row_part_in room bytes.now) }
{
    let most = if room >= 5 { 1 } else { 0 };
    let (flag, rest) = number_at(0, 1, 0, most, bytes)?;
    if flag == 0 {
        return Ok((None, rest));
    }
    some_row_at(alloc, room, rest)
}

// A change before so many others.
#[tactic(auto, unfolding(crate::specs::ChangeReaders::change_in))]
fn change_at(
    alloc: Global,
    left: usize,
    slot: Slot,
    bytes: &[u8],
) -> Result<(Change, &[u8]), ReadFault>
    requires { left ≤ 4294967295 }
    ensures { Gives (λ x. (x.0, x.1.now)) result (change_in left slot bytes.now) }
{
    let (place, rest) = place_at(slot.least, LAST_PLACE - left as u128, bytes)?;
    let room = slot.room.saturating_sub(14 + 15 * left);
    let (row, rest) = row_part_at(alloc, room, rest)?;
    Ok((Change { place, row }, rest))
}

pub(crate) fn size_of(change: &Change) -> usize
    ensures { result ≡ length (change_bytes change.now) }
{
    match &change.row {
        None => 15,
        Some(row) => 17 + row.as_slice().len(),
    }
}

fn slot_after(slot: Slot, change: &Change) -> Slot
    ensures { (n : ℕ) → result ≡ slot_behind n slot change.now }
{
    Slot {
        least: place_rank(change.place) + 1,
        room: slot.room.saturating_sub(size_of(change)),
    }
}

// So many changes, in so many bytes at most.
pub(crate) fn changes_at(
    alloc: Global,
    count: usize,
    room: usize,
    bytes: &[u8],
) -> Result<(Items<Change>, &[u8]), ReadFault>
    requires { count ≤ 4294967295 }
    ensures { Gives (λ x. (x.0, x.1.now)) result (many_in change_in slot_behind count (record { least = 0; room = room }) bytes.now) }
{
    let mut changes = Vec::with_capacity(alloc, count.min(bytes.len() / 15))?;
    let mut left = count;
    let mut slot = Slot { least: 0, room };
    let mut rest = bytes;
    while left > 0 {
        left -= 1;
        let (change, after) = change_at(alloc, left, slot, rest)?;
        slot = slot_after(slot, &change);
        changes.push(change)?;
        rest = after;
    }
    Ok((Items::from_vec(changes), rest))
}

fn change_of(alloc: Global, bytes: &[u8]) -> Result<(Change, u64), CodecFault>
    ensures { TellsFront (change_in 0 whole_slot) bytes.now result }
{
    let slot = Slot {
        least: 0,
        room: 4017,
    };
    match change_at(alloc, 0, slot, bytes) {
        Ok((change, rest)) => {
            let used = bytes.len().saturating_sub(rest.len()) as u64;
            Ok((change, used))
        }
        Err(ReadFault::NoMemory) => Err(CodecFault::NoMemory),
        Err(ReadFault::Left(left)) => {
            let place = bytes.len().saturating_sub(left) as u64;
            Err(CodecFault::NotARecord { place })
        }
    }
}

/// The change that is a front of the bytes, and its length.
pub fn decode_change(alloc: Global, bytes: &[u8]) -> Result<(Change, u64), CodecFault>
    ensures change { IfOk result (λ found. Finds IsChangeOf bytes.now found.0 found.1) }
    ensures not_a_change { (place : ℕ) → IsErrOf result (CodecFault.NotARecord place) → Misreads IsChangeOf bytes.now place }
{
    change_of(alloc, bytes)
}
