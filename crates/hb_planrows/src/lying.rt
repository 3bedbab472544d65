// Rows with their places, by ascending key.
ghost use Rattle.std.specs.Prelude.{◌≡◌, All, IfOk};
ghost use Rattle.hb_types.specs.Rows.{IsRow, values_in};
ghost use Rattle.hb_talk.specs.Plans.{lying as told_lying, lying_rows};

use crate::ranks::{into_rows, put_ranked};
use hb_codec::{CodecFault, decode_row};
use hb_model::Row;
use hb_types::{NoMemory, Place, Stored};
use std::alloc::Global;
use std::collections::BTreeMap;

/// A row with its place.
pub type Lying = (Place, Row);

// The values of a row.
fn values_of(alloc: Global, row: &[u8]) -> Result<Option<Row>, NoMemory>
    ensures { IsRow row.now → IfOk result (λ values. values ≡ values_in row.now) }
{
    match decode_row(alloc, row) {
        Ok(values) => Ok(Some(values)),
        Err(CodecFault::NotARecord { place: _ }) => Ok(None),
        Err(CodecFault::NoMemory) => Err(NoMemory),
    }
}

fn lying(alloc: Global, stored: &Stored) -> Result<Option<Lying>, NoMemory>
    ensures { IsRow stored.now.row → IfOk result (λ l. l ≡ told_lying stored.now) }
{
    match values_of(alloc, stored.row.as_slice())? {
        Some(values) => Ok(Some((stored.place, values))),
        None => Ok(None),
    }
}

/// The rows with their places, by ascending key, those of one key as they came.
pub fn rows_lying(alloc: Global, rows: &[Stored]) -> Result<Vec<Lying>, NoMemory>
    ensures { All (λ r. IsRow r.row) rows.now → IfOk result (λ ls. ls.items ≡ lying_rows rows.now) }
{
    let mut sorted = BTreeMap::new(alloc);
    let mut nth = 0;
    for row in rows {
        put_ranked(&mut sorted, nth, lying(alloc, row)?)?;
        nth += 1;
    }
    into_rows(alloc, sorted)
}
