// The image of the next point.
ghost use Rattle.std.specs.Prelude.{◌≡◌, true, IfOk, MatchOption};
ghost use Rattle.hb_whole.specs.Points.{has_no_place, IsMade};
ghost use Rattle.hb_whole.specs.Slots.{rows_of};

use crate::place::{place_for, second_for, sequence_for};
use crate::slots::Slots;
use crate::valid::Valid;
use hb_types::NoMemory;

/// Where the next point goes, with the image of its rows; None where no place is left for it.
pub(crate) fn next_image(
    slots: &Slots,
    valid: Option<Valid>,
) -> Result<Option<(Valid, Vec<u8>)>, NoMemory>
    ensures { IfOk result (λ found. MatchOption found (has_no_place valid (rows_of slots.now) ≡ true) (λ made. IsMade valid (rows_of slots.now) made.0 made.1.items)) }
{
    let sequence = match sequence_for(valid) {
        Some(sequence) => sequence,
        None => return Ok(None),
    };
    let count = match slots.count() {
        Some(count) => count,
        None => return Ok(None),
    };
    let image = slots.image(count)?;
    let length = image.len() as u64;
    match place_for(valid, length) {
        Some(place) => {
            let next = Valid {
                second: second_for(valid),
                sequence,
                place,
                length,
            };
            Ok(Some((next, image)))
        }
        None => Ok(None),
    }
}
