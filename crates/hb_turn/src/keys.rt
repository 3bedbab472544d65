// The keys of a group that a turn moves.
ghost use Rattle.std.specs.Prelude.{◌≡◌, ◌==◌, ◌++◌, ◌∷◌, [], All, FitsSigned, IfOk, MatchOption, OnOk, filter};
ghost use Rattle.std.specs.Int.{w32};
ghost use Rattle.hb_types.specs.Groups.{group_of as group_in_table};

use hb_groups::group_of;
use hb_types::NoMemory;
use sqlite_items::Items;
use std::alloc::Global;

/// The group of a key, if it is an INTEGER.
fn group_in(key: &i64) -> Option<u16>
    ensures { MatchOption result (FitsSigned w32 key.now → ⊥) (λ g. FitsSigned w32 key.now × (g ≡ group_in_table key.now)) }
{
    if *key < -2_147_483_648 || 2_147_483_647 < *key {
        return None;
    }
    Some(group_of(*key))
}

fn push_key(keys: &mut Items<i64>, key: &i64) -> Result<(), NoMemory>
    ensures { OnOk result (keys.new ≡ keys.old ++ key.now ∷ []) }
{
    keys.push(*key)?;
    Ok(())
}

/// The keys of a group among those that were told; none where one is no INTEGER.
pub(crate) fn keys_of(
    alloc: Global,
    keys: &[i64],
    group: u16,
) -> Result<Option<Items<i64>>, NoMemory>
    ensures { IfOk result (λ own. MatchOption own (All (FitsSigned w32) keys.now → ⊥) (λ ks. All (FitsSigned w32) ks × (ks ≡ filter (λ key. group_in_table key == group) keys.now))) }
{
    let mut own = Items::new(alloc);
    for key in keys {
        let found = match group_in(key) {
            Some(found) => found,
            None => return Ok(None),
        };
        if found == group {
            push_key(&mut own, key)?;
        }
    }
    Ok(Some(own))
}
