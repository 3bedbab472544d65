// The header of the valid point, in the first bytes of the file.
ghost use Rattle.std.specs.Prelude.{◌≡◌, ◌+◌, ◌≤◌, ◌↔◌, IsTrue, length, take, drop, MatchOption, IfOk};
ghost use Rattle.hb_whole.specs.declared.header.Header.{Header as HeaderAt};
ghost use Rattle.hb_whole.specs.Kept.{header_at};
ghost use Rattle.hb_whole.specs.Points.{HasHeader, IsWithin};

use crate::header::{Header, read};
use crate::place::GREATEST;
use hb_types::NoMemory;
use std::alloc::Global;

/// The place of the second header, or of the first.
pub(crate) fn header_place(second: bool) -> u64
    ensures place { result ≡ header_at second }
    ensures low { result ≤ 64 }
{
    if second { 64 } else { 0 }
}

// So many bytes from a place on.
fn window(bytes: &[u8], at: usize, count: usize) -> &[u8]
    requires { at + count ≤ length bytes.now }
    ensures { result.now ≡ take count (drop at bytes.now) }
{
    let (_, rest) = bytes.split_at(at);
    let (front, _) = rest.split_at(count);
    front
}

// Whether a header's numbers are in the format, and its image in a file of this size.
fn is_within(header: Header, size: u64) -> bool
    ensures { IsTrue result ↔ IsWithin header size }
{
    header.from <= GREATEST
        && header.floor <= GREATEST
        && header.place >= 128
        && header.place <= size
        && header.length <= size - header.place
}

/// The opened header, if it is in the format of a file of this size.
pub(crate) fn opened_header(
    alloc: Global,
    headers: &[u8],
    second: bool,
    size: u64,
) -> Result<Option<Header>, NoMemory>
    requires { length headers.now ≡ 128 }
    ensures { IfOk result (λ found. MatchOption found ((h : HeaderAt) → HasHeader headers.now second size h → ⊥) (λ h. HasHeader headers.now second size h)) }
{
    let at = header_place(second) as usize + 1;
    match read(alloc, window(headers, at, 63))? {
        Some(header) => {
            if is_within(header, size) {
                Ok(Some(header))
            } else {
                Ok(None)
            }
        }
        None => Ok(None),
    }
}
