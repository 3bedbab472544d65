// The headers of the file.
ghost use Rattle.std.specs.Prelude.{◌≡◌, ◌+◌, ◌≤◌, ℕ, List, length, take, drop, MatchOption, IfOk};
ghost use Rattle.std.specs.Int.{from_le_bytes, w64};
ghost use Rattle.hb_whole.specs.declared.header.Header.{Header as HeaderAt};
ghost use Rattle.hb_whole.specs.Headers.{IsHeader, chosen, text_of};

use crate::encode::header as encoded;
use hb_store::Point;
use hb_types::{NoMemory, Number};
use std::alloc::Global;

/// What an opened header says.
#[derive(Clone, Copy, Debug, PartialEq, Eq)]
pub struct Header {
    pub sequence: u64,
    pub from: u64,
    pub floor: u64,
    pub place: u64,
    pub length: u64,
}

fn u64_at(bytes: &[u8], at: usize) -> u64
    requires { at + 8 ≤ length bytes.now }
    ensures { result ≡ from_le_bytes w64 (take 8 (drop at bytes.now)) }
{
    let (_, rest) = bytes.split_at(at);
    u64::from_le_bytes([
        rest[0], rest[1], rest[2], rest[3], rest[4], rest[5], rest[6], rest[7],
    ])
}

/// Which of the two headers is the valid one: the opened one of the greater sequence.
pub(crate) fn choose(headers: &[u8]) -> Option<bool>
    requires { length headers.now ≡ 128 }
    ensures { result ≡ chosen headers.now }
{
    match (headers[0] == 1, headers[64] == 1) {
        (true, true) => Some(u64_at(headers, 1) < u64_at(headers, 65)),
        (true, false) => Some(false),
        (false, true) => Some(true),
        (false, false) => None,
    }
}

/// What stands behind a header's gate, if that is in the format.
pub(crate) fn read(alloc: Global, bytes: &[u8]) -> Result<Option<Header>, NoMemory>
    requires { length bytes.now ≡ 63 }
    ensures { IfOk result (λ found. MatchOption found ((h : HeaderAt) → IsHeader h → bytes.now ≡ text_of h → ⊥) (λ h. bytes.now ≡ text_of h)) }
{
    let header = Header {
        sequence: u64_at(bytes, 0),
        from: u64_at(bytes, 8),
        floor: u64_at(bytes, 16),
        place: u64_at(bytes, 24),
        length: u64_at(bytes, 32),
    };
    let point = Point {
        from: header.from,
        floor: Number(header.floor),
    };
    let text = encoded(alloc, header.sequence, point, header.place, header.length)?;
    if text.as_slice() == bytes {
        Ok(Some(header))
    } else {
        Ok(None)
    }
}
