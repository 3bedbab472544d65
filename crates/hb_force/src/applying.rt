// Changes on their way into a store.
ghost use Rattle.std.specs.Prelude.{◌≡◌, ◌+◌, ◌≤◌};
ghost use Rattle.hb_types.specs.declared.places.Place.{Place};
ghost use Rattle.hb_types.specs.Lists.{Each};
ghost use Rattle.hb_types.specs.Put.{put_all};
ghost use Rattle.hb_types.specs.Records.{IsChange};
ghost use Rattle.hb_store.specs.Meanings.{count_at, Stays};

use hb_store::Store;
use hb_types::Change;

/// Makes changes for which there is room, one after another.
pub(crate) fn apply_all<S: Store>(store: &mut S, changes: Vec<Change>)
    requires room { (place : Place) → count_at place changes.items ≤ S.room store.old place }
    requires fit { Each IsChange changes.items }
    ensures rows { S.rows store.new ≡ put_all (S.rows store.old) changes.items }
    ensures stays { Stays S.keeps S.staged store.old store.new }
    ensures room { (place : Place) → S.room store.old place ≡ S.room store.new place + count_at place changes.items }
{
    for change in changes {
        store.apply(change);
    }
}
