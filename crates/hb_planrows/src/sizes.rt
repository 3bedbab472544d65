// The bytes of changes.
ghost use Rattle.std.specs.Prelude.{◌≡◌, length};
ghost use Rattle.hb_types.specs.Records.{change_bytes};

use hb_types::Change;

/// How many bytes a change takes in a log.
pub fn change_size(change: &Change) -> u64
    ensures { result ≡ length (change_bytes change.now) }
{
    match &change.row {
        Some(row) => 17 + row.as_slice().len() as u64,
        None => 15,
    }
}
