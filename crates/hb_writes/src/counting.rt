// How many bytes changes take.
ghost use Rattle.std.specs.Prelude.{◌≡◌, ◌+◌, nat_lt, true, false, length, MatchOption, ◌∷◌, []};
ghost use Rattle.hb_types.specs.Records.{change_bytes};
ghost use Rattle.hb_model.specs.Does.{most_bytes};
ghost use Rattle.hb_talk.specs.Plans.{sizes};
ghost use Rattle.hb_writes.specs.Writings.{Counts};

use hb_access::Usage;
use hb_planrows::change_size;
use hb_types::Change;

/// The bytes of the changes of one transaction.
const MOST_BYTES: u64 = 1_048_576;

// The bytes with those of a change, unless they are too many.
fn with_size(bytes: u64, change: &Change) -> Option<u64>
    ensures { MatchOption result (nat_lt most_bytes (bytes + length (change_bytes change.now)) ≡ true) (λ after. (nat_lt most_bytes (bytes + length (change_bytes change.now)) ≡ false) × (after ≡ bytes + length (change_bytes change.now))) }
{
    let size = change_size(change);
    if bytes > MOST_BYTES || size > MOST_BYTES - bytes {
        return None;
    }
    Some(bytes + size)
}

// The bytes with those of changes, unless they are too many.
fn with_sizes(before: u64, changes: &[Change]) -> Option<u64>
    ensures { MatchOption result (nat_lt most_bytes (before + sizes changes.now) ≡ true) (λ after. (nat_lt most_bytes (before + sizes changes.now) ≡ false) × (after ≡ before + sizes changes.now)) }
{
    let mut bytes = before;
    for change in changes {
        bytes = with_size(bytes, change)?;
    }
    if bytes > MOST_BYTES {
        return None;
    }
    Some(bytes)
}

/// Counts a change, unless it is too much for one transaction.
pub fn counted_one(usage: Usage, change: &Change) -> Option<Usage>
    ensures { Counts usage (change.now ∷ []) result }
{
    let bytes = with_size(usage.bytes, change)?;
    Some(Usage { bytes, ..usage })
}

/// Counts changes, unless they are too much for one transaction.
pub(crate) fn counted(usage: Usage, changes: &[Change]) -> Option<Usage>
    ensures { Counts usage changes.now result }
{
    let bytes = with_sizes(usage.bytes, changes)?;
    Some(Usage { bytes, ..usage })
}
