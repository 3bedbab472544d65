// The changes of a Commit, made in a store.
ghost use Rattle.std.specs.Prelude.{◌≡◌, All, OnOk};
ghost use Rattle.hb_types.specs.declared.places.Place.{Place};
ghost use Rattle.hb_types.specs.Put.{put_all};
ghost use Rattle.hb_types.specs.Records.{IsChange};
ghost use Rattle.hb_store.specs.Meanings.{Stays};

use hb_store::Store;
use hb_types::{Change, NoMemory};
use std::alloc::Global;

/// Makes the changes, one after another, with memory that is taken and spent here.
#[tactic(auto, using(crate::proofs::Staying::stays_same, crate::proofs::Staying::stays_then))]
pub(crate) fn apply_all<S: Store>(
    alloc: Global,
    store: &mut S,
    changes: &[Change],
) -> Result<(), NoMemory>
    requires { All IsChange changes.now }
    ensures rows { OnOk result (S.rows store.new ≡ put_all (S.rows store.old) changes.now) }
    ensures room { OnOk result ((place : Place) → S.room store.new place ≡ S.room store.old place) }
    ensures begun { S.begun store.new ≡ S.begun store.old }
    ensures stays { Stays S.keeps S.staged store.old store.new }
{
    store.room(changes)?;
    for change in changes {
        let copy = change.copy(alloc)?;
        store.apply(copy);
    }
    Ok(())
}
