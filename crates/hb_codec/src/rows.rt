// Reads rows.
ghost use Rattle.std.specs.Prelude.{◌≡◌, ◌≤◌, ℕ, List, ◌-◌, length, IfOk, IsErrOf};
ghost use Rattle.hb_types.specs.declared.value.Value.{Value};
ghost use Rattle.hb_types.specs.declared.value.Value.TheVariants as values;
ghost use Rattle.hb_types.specs.Rows.{IsRowOf, value_bytes};
ghost use Rattle.hb_codec.specs.Reading.{Misspells};
ghost use Rattle.hb_codec.specs.Readers.{Gives, Tells, behind, many_in};
ghost use Rattle.hb_codec.specs.RowReaders.{integer_fits as has_room, integer_in, text_in, kind_in, value_in, size_in, room_after as room_behind, fewest as fewest_in, most as most_in, row_in};

use crate::fault::{CodecFault, ReadFault};
use crate::reading::{exactly_at, number_at};
use hb_types::{Text, Value};
use sqlite_items::Items;
use std::alloc::Global;

// How many bytes the values that are left must have, at least and at most.
#[derive(Clone, Copy, Debug, PartialEq, Eq)]
pub(crate) struct Room {
    pub low: usize,
    pub high: usize,
}

// Whether an integer leaves room for the values after it, of 2 to 257 bytes each.
fn integer_fits(left: usize, room: Room) -> bool
    requires { left ≤ 255 }
    ensures { result ≡ has_room left room }
{
    5 + 2 * left <= room.high && room.low <= 5 + 257 * left
}

fn room_after(room: Room, used: usize) -> Room
    ensures { (n : ℕ) (v : Value) → used ≡ length (value_bytes v) → result ≡ room_behind n room v }
{
    Room {
        low: room.low.saturating_sub(used),
        high: room.high.saturating_sub(used),
    }
}

#[tactic(auto, unfolding(crate::specs::RowReaders::integer_in))]
fn integer_at(bytes: &[u8]) -> Result<(i32, &[u8]), ReadFault>
    ensures { Gives (λ x. (values.Int x.0, x.1.now)) result (integer_in bytes.now) }
{
    let (n, rest) = number_at(0, 4, 0, 4_294_967_295, bytes)?;
    Ok(((n as u32).cast_signed(), rest))
}

#[tactic(auto, unfolding(crate::specs::RowReaders::text_in))]
fn text_at(left: usize, room: Room, bytes: &[u8]) -> Result<(&[u8], &[u8]), ReadFault>
    requires { left ≤ 255 }
    ensures { Gives (λ x. (values.Text x.0.now, x.1.now)) result (text_in left room bytes.now) }
{
    let low = room.low.saturating_sub(2 + 257 * left);
    let high = room.high.saturating_sub(2 + 2 * left).min(255);
    let (len, rest) = number_at(0, 1, low as u64, high as u64, bytes)?;
    exactly_at(len as usize, rest)
}

#[tactic(auto, unfolding(crate::specs::RowReaders::kind_in))]
fn kind_at(left: usize, room: Room, bytes: &[u8]) -> Result<(u64, &[u8]), ReadFault>
    requires { left ≤ 255 }
    ensures { Gives (λ x. (x.0, x.1.now)) result (kind_in left room bytes.now) }
{
    let least = if integer_fits(left, room) { 1 } else { 2 };
    number_at(0, 1, least, 2, bytes)
}

// A value before so many others.
#[tactic(auto, unfolding(crate::specs::RowReaders::value_in))]
fn value_at(
    alloc: Global,
    left: usize,
    room: Room,
    bytes: &[u8],
) -> Result<(Value, &[u8]), ReadFault>
    requires { left ≤ 255 }
    ensures { Gives (λ x. (x.0, x.1.now)) result (value_in left room bytes.now) }
{
    let (kind, rest) = kind_at(left, room, bytes)?;
    if kind == 1 {
        let (n, rest) = integer_at(rest)?;
        return Ok((Value::Int(n as i128), rest));
    }
    let (text, rest) = text_at(left, room, rest)?;
    let text = Vec::from_slice(alloc, text)?;
    Ok((Value::Text(Text::new(text)), rest))
}

// The length of a value.
fn size_of(value: &Value) -> usize
    ensures { result ≡ length (value_bytes value.now) }
{
    match value {
        Value::Int(_) => 5,
        Value::Text(text) => 2 + text.as_slice().len(),
    }
}

// The length of a value, without the value.
#[tactic(auto, unfolding(crate::specs::RowReaders::size_in, crate::specs::RowReaders::value_in))]
fn size_at(left: usize, room: Room, bytes: &[u8]) -> Result<(usize, &[u8]), ReadFault>
    requires { left ≤ 255 }
    ensures { Gives (λ x. (x.0, x.1.now)) result (size_in left room bytes.now) }
{
    let (kind, rest) = kind_at(left, room, bytes)?;
    if kind == 1 {
        let (_, rest) = integer_at(rest)?;
        return Ok((5, rest));
    }
    let (text, rest) = text_at(left, room, rest)?;
    Ok((2 + text.len(), rest))
}

fn values_at(
    alloc: Global,
    count: usize,
    first: Room,
    bytes: &[u8],
) -> Result<(Items<Value>, &[u8]), ReadFault>
    requires { count ≤ 255 }
    ensures { Gives (λ x. (x.0, x.1.now)) result (many_in value_in room_behind count first bytes.now) }
{
    let mut values = Vec::with_capacity(alloc, count.min(bytes.len() / 2))?;
    let mut left = count;
    let mut room = first;
    let mut rest = bytes;
    while left > 0 {
        left -= 1;
        let (value, after) = value_at(alloc, left, room, rest)?;
        room = room_after(room, size_of(&value));
        values.push(value)?;
        rest = after;
    }
    Ok((Items::from_vec(values), rest))
}

// What stands behind the values.
fn skip_values(count: usize, first: Room, bytes: &[u8]) -> Result<&[u8], ReadFault>
    requires { count ≤ 255 }
    ensures { Gives (λ x. x.now) result (behind (many_in value_in room_behind count first bytes.now)) }
{
    let mut left = count;
    let mut room = first;
    let mut rest = bytes;
    while left > 0 {
        left -= 1;
        let (size, after) = size_at(left, room, rest)?;
        room = room_after(room, size);
        rest = after;
    }
    Ok(rest)
}

fn fewest(low: usize) -> u64
    requires { low ≤ 65537 }
    ensures { result ≡ fewest_in low }
{
    (low as u64 + 254) / 257
}

fn most(high: usize) -> u64
    ensures { result ≡ most_in high }
{
    (high.saturating_sub(2) as u64 / 2).min(255)
}

fn room_within(low: usize, high: usize) -> Room
    ensures { result ≡ record { low = low - 2; high = high - 2 } }
{
    Room {
        low: low.saturating_sub(2),
        high: high.saturating_sub(2),
    }
}

#[tactic(auto, unfolding(crate::specs::RowReaders::row_in))]
fn row_at(
    alloc: Global,
    low: usize,
    high: usize,
    bytes: &[u8],
) -> Result<(Items<Value>, &[u8]), ReadFault>
    requires { low ≤ 65537 }
    ensures { Gives (λ x. (x.0, x.1.now)) result (row_in low high bytes.now) }
{
    let (_, rest) = number_at(0, 1, 1, 1, bytes)?;
    let (count, rest) = number_at(0, 1, fewest(low), most(high), rest)?;
    values_at(alloc, count as usize, room_within(low, high), rest)
}

// What stands behind a row.
#[tactic(auto, unfolding(crate::specs::RowReaders::row_in))]
pub(crate) fn skip_row(low: usize, high: usize, bytes: &[u8]) -> Result<&[u8], ReadFault>
    requires { low ≤ 65537 }
    ensures { Gives (λ x. x.now) result (behind (row_in low high bytes.now)) }
{
    let (_, rest) = number_at(0, 1, 1, 1, bytes)?;
    let (count, rest) = number_at(0, 1, fewest(low), most(high), rest)?;
    skip_values(count as usize, room_within(low, high), rest)
}

// 2 and 255 values of 257 bytes.
const LONGEST_ROW: usize = 65_537;

fn row_of(alloc: Global, bytes: &[u8]) -> Result<Items<Value>, CodecFault>
    ensures { Tells (row_in 0 65537) bytes.now result }
{
    match row_at(alloc, 0, LONGEST_ROW, bytes) {
        Ok((values, rest)) => {
            if rest.len() > 0 {
                let place = bytes.len().saturating_sub(rest.len()) as u64;
                return Err(CodecFault::NotARecord { place });
            }
            Ok(values)
        }
        Err(ReadFault::NoMemory) => Err(CodecFault::NoMemory),
        Err(ReadFault::Left(left)) => {
            let place = bytes.len().saturating_sub(left) as u64;
            Err(CodecFault::NotARecord { place })
        }
    }
}

/// The values of the row that the bytes spell, all of them.
pub fn decode_row(alloc: Global, bytes: &[u8]) -> Result<Items<Value>, CodecFault>
    ensures row { IfOk result (λ values. IsRowOf bytes.now values) }
    ensures not_a_row { (place : ℕ) → IsErrOf result (CodecFault.NotARecord place) → Misspells (λ (values : List Value) b. IsRowOf b values) bytes.now place }
{
    row_of(alloc, bytes)
}
