// Goes over the records of a log.
ghost use Rattle.std.specs.Prelude.{◌≡◌, ◌+◌, ◌≤◌, ◌^◌, ◌∷◌, ◌++◌, [], ℕ, List, length, take, drop, All, IfOk, OnOk, IsErrOf};
ghost use Rattle.std.specs.Int.{from_le_bytes, w32};
ghost use Rattle.hb_types.specs.Logs.{end_of};
ghost use Rattle.hb_types.specs.Records.{HasRecord};
ghost use Rattle.hb_log.specs.Standing.{Breaks, Found};
ghost use Rattle.hb_log.specs.Steps.{Steps};
ghost use Rattle.hb_log.specs.declared.walk.WalkFault.TheVariants.{NoMemory};

use hb_codec::{CodecFault, decode_record};
use hb_types::{LogItem, NoMemory, Placed};
use std::alloc::Global;

/// What stands at a place: a closed gate, a record of some length, or an opened record that isn't in the grammar.
#[derive(Debug, Drop)]
pub enum Step {
    Shut,
    Record(LogItem, usize),
    Bad,
}

#[derive(Clone, Copy, Debug, PartialEq, Eq)]
pub enum WalkFault {
    Damaged(u64),
    NoMemory,
}

impl From<NoMemory> for WalkFault {
    ghost from_gives = { λ _ e. e ≡ NoMemory };

    fn from(_: NoMemory) -> Self {
        WalkFault::NoMemory
    }
}

fn u32_at(bytes: &[u8]) -> u32
    requires { 4 ≤ length bytes.now }
    ensures { result ≡ from_le_bytes w32 (take 4 bytes.now) }
{
    u32::from_le_bytes([bytes[0], bytes[1], bytes[2], bytes[3]])
}

// What stands behind an open gate.
fn behind_gate(alloc: Global, rest: &[u8]) -> Result<Step, NoMemory>
    ensures { IfOk result (Steps (1 ∷ rest.now)) }
{
    if rest.len() < 4 {
        return Ok(Step::Bad);
    }
    let (head, more) = rest.split_at(4);
    let len = u32_at(head) as usize;
    if more.len() <= len {
        return Ok(Step::Bad);
    }
    let (body, _) = more.split_at(len);
    match decode_record(alloc, body) {
        Ok(item) => Ok(Step::Record(item, 5 + len)),
        Err(CodecFault::NotARecord { place: _ }) => Ok(Step::Bad),
        Err(CodecFault::NoMemory) => Err(NoMemory),
    }
}

fn next_step(alloc: Global, rest: &[u8]) -> Result<Step, NoMemory>
    ensures { IfOk result (Steps rest.now) }
{
    match rest {
        [] => Ok(Step::Shut),
        [gate, more @ ..] => {
            if *gate == 1 {
                behind_gate(alloc, more)
            } else {
                Ok(Step::Shut)
            }
        }
    }
}

fn keep(items: &mut Vec<Placed>, place: u64, item: LogItem) -> Result<(), NoMemory>
    ensures { OnOk result (items.new.items ≡ items.old.items ++ record { place = place; item = item } ∷ []) }
{
    items.push(Placed { place, item })?;
    Ok(())
}

/// The records of the bytes, which stand in an image from a place on, and the place behind the last one.
pub fn walk(alloc: Global, bytes: &[u8], from: u64) -> Result<(Vec<Placed>, u64), WalkFault>
    requires { from + length bytes.now ≤ 2 ^ 62 }
    ensures found { IfOk result (λ found. (image : List ℕ) → bytes.now ≡ drop from image → Found image from found.0.items found.1) }
    ensures recorded { IfOk result (λ found. All (λ p. HasRecord p.item) found.0.items) }
    ensures damaged { (place : ℕ) → IsErrOf result (WalkFault.Damaged place) → (image : List ℕ) → bytes.now ≡ drop from image → Breaks image from place }
    ensures within { IfOk result (λ found. found.1 ≤ from + length bytes.now) }
{
    let mut items = Vec::new(alloc);
    let mut at = 0;
    loop {
        let (_, rest) = bytes.split_at(at);
        let place = from + at as u64;
        match next_step(alloc, rest)? {
            Step::Shut => return Ok((items, place)),
            Step::Bad => return Err(WalkFault::Damaged(place)),
            Step::Record(item, n) => {
                keep(&mut items, place, item)?;
                at += n;
            }
        }
    }
}
