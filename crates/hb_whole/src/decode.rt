// Rows from the bytes of an image.
ghost use Rattle.std.specs.Prelude.{◌≡◌, ◌+◌, ◌≤◌, ◌++◌, ◌∷◌, [], ℕ, List, true, false, length, take, MatchOption, IfOk, OnOk};
ghost use Rattle.std.specs.Int.{from_le_bytes, w32};
ghost use Rattle.hb_types.specs.declared.change.Stored.{Stored as Row};
ghost use Rattle.hb_whole.specs.Read.{Follow, GoesOnNever, IsImage, IsFront, HasNoRow, is_above as is_above_all};

use hb_codec::{CodecFault, changes_have_one_form, decode_change};
use hb_types::{Change, NoMemory, Place, Stored};
use sqlite_items::Items;
use std::alloc::Global;

fn u32_at(bytes: &[u8]) -> u32
    requires { 4 ≤ length bytes.now }
    ensures { result ≡ from_le_bytes w32 (take 4 bytes.now) }
{
    u32::from_le_bytes([bytes[0], bytes[1], bytes[2], bytes[3]])
}

// The row that is a front of the bytes, and its length.
fn front_row(alloc: Global, bytes: &[u8]) -> Result<Option<(Stored, u64)>, NoMemory>
    ensures { IfOk result (λ found. MatchOption found (HasNoRow bytes.now) (λ f. IsFront bytes.now f.0 f.1)) }
{
    changes_have_one_form();
    match decode_change(alloc, bytes) {
        Ok((change, used)) => {
            let Change { place, row } = change;
            match row {
                Some(row) => Ok(Some((Stored { place, row }, used))),
                None => Ok(None),
            }
        }
        Err(CodecFault::NotARecord { place: _ }) => Ok(None),
        Err(CodecFault::NoMemory) => Err(NoMemory),
    }
}

// Whether a place is above that of the last row.
fn is_above(rows: &[Stored], place: Place) -> bool
    ensures { result ≡ is_above_all place rows.now }
{
    match rows {
        [] => true,
        [.., last] => last.place.cmp(&place).is_lt(),
    }
}

// The row that goes on with others.
fn next_row(alloc: Global, rows: &[Stored], bytes: &[u8]) -> Result<Option<(Stored, u64)>, NoMemory>
    ensures { IfOk result (λ found. MatchOption found (GoesOnNever rows.now bytes.now) (λ f. IsFront bytes.now f.0 f.1 × (is_above_all f.0.place rows.now ≡ true))) }
{
    changes_have_one_form();
    match front_row(alloc, bytes)? {
        Some((row, used)) => {
            if is_above(rows, row.place) {
                Ok(Some((row, used)))
            } else {
                Ok(None)
            }
        }
        None => Ok(None),
    }
}

// So many rows that are all of the bytes.
fn rows_behind(alloc: Global, body: &[u8], count: u32) -> Result<Option<Items<Stored>>, NoMemory>
    ensures { IfOk result (λ found. MatchOption found ((rows : List Row) → Follow count [] body.now rows → ⊥) (λ rows. Follow count [] body.now rows)) }
{
    changes_have_one_form();
    let mut rows = Items::new(alloc);
    let mut at = 0;
    let mut left = count;
    while left > 0 {
        let (_, rest) = body.split_at(at);
        match next_row(alloc, rows.as_slice(), rest)? {
            Some((row, used)) => {
                rows.push(row)?;
                at += used as usize;
                left -= 1;
            }
            None => return Ok(None),
        }
    }
    if at < body.len() {
        return Ok(None);
    }
    Ok(Some(rows))
}

/// The rows of an image, or none where the bytes aren't one.
pub(crate) fn rows_of_image(alloc: Global, bytes: &[u8]) -> Result<Option<Items<Stored>>, NoMemory>
    ensures { IfOk result (λ found. MatchOption found ((rows : List Row) → IsImage bytes.now rows → ⊥) (λ rows. IsImage bytes.now rows)) }
{
    if bytes.len() < 4 {
        return Ok(None);
    }
    let (head, body) = bytes.split_at(4);
    rows_behind(alloc, body, u32_at(head))
}
