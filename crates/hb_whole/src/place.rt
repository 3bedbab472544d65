// Where the next point goes.
ghost use Rattle.std.specs.Prelude.{◌≡◌, ◌+◌, ◌≤◌, ◌<◌, ◌^◌, ℕ, Bool, List, Option, MatchOption};
ghost use Rattle.hb_disks.specs.Points.{Point};
ghost use Rattle.hb_whole.specs.Kept.{Avoids, Keeps};
ghost use Rattle.hb_whole.specs.Next.{next_place, next_second, next_sequence};

use crate::valid::Valid;

pub(crate) const GREATEST: u64 = 1 << 62;

/// Where an image of so many bytes goes, if it ends at 2^62 or before.
pub(crate) fn place_for(valid: Option<Valid>, length: u64) -> Option<u64>
    ensures { MatchOption result (2 ^ 62 < next_place valid length + length) (λ place. (place ≡ next_place valid length) × (place + length ≤ 2 ^ 62)) }
{
    if length > GREATEST {
        return None;
    }
    let place = match valid {
        None => 128,
        Some(valid) if 128 + length <= valid.place => 128,
        Some(valid) => valid.place.checked_add(valid.length)?,
    };
    if place > GREATEST || place + length > GREATEST {
        return None;
    }
    Some(place)
}

/// The sequence of the next point, if that is at most 2^62.
pub(crate) fn sequence_for(valid: Option<Valid>) -> Option<u64>
    ensures { MatchOption result (2 ^ 62 < next_sequence valid) (λ n. (n ≡ next_sequence valid) × (n ≤ 2 ^ 62)) }
{
    match valid {
        None => Some(1),
        Some(valid) if valid.sequence < GREATEST => Some(valid.sequence + 1),
        Some(_) => None,
    }
}

/// Whether the next point stands in the second header.
pub(crate) fn second_for(valid: Option<Valid>) -> bool
    ensures { result ≡ next_second valid }
{
    match valid {
        None => false,
        Some(valid) => !valid.second,
    }
}

/// A law: the next image lies behind the headers, and touches nothing of the valid point.
pub(crate) fn next_place_is_free(_valid: Option<Valid>, _length: u64)
    ensures { (spare_open : Bool) (p : Option Point) (image : List ℕ) → Keeps _valid spare_open p image → Avoids _valid (next_place _valid _length) _length × (128 ≤ next_place _valid _length) }
{}
