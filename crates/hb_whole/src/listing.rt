// The rows under a path, in the order of places.
ghost use Rattle.std.specs.Prelude.{◌≡◌, ℕ, [], ◌∷◌, ◌++◌, ◌+◌, ◌≤◌, length, true, List, take, All, IfOk, OnOk, Option, Some, None};
ghost use Rattle.std.specs.Ordering.{int_cmp};
ghost use Rattle.hb_types.specs.declared.places.Path.TheVariants.{Group};
ghost use Rattle.hb_types.specs.Lists.{Ascends};
ghost use Rattle.hb_types.specs.Places.{place_cmp};
ghost use Rattle.hb_types.specs.Put.{rows_under};
ghost use Rattle.hb_store.specs.Meanings.{keys_of, IsStored};
ghost use Rattle.hb_whole.specs.Slots.{rows_of, AreSound};
ghost use Rattle.hb_whole.specs.Ranges.{first_under, last_under};

use crate::map::{Map, Slot};
use hb_types::{NoMemory, Path, Place, Space, Stored};
use sqlite_items::Items;
use std::alloc::Global;
use std::ops::Bound;

fn first(path: Path) -> Place
    ensures { result ≡ first_under path }
{
    match path {
        Path::Whole(space) => Place {
            space,
            group: 0,
            key: i64::MIN,
        },
        Path::Group(space, group) => Place {
            space,
            group,
            key: i64::MIN,
        },
        Path::Key(place) => place,
    }
}

fn last(path: Path) -> Place
    ensures { result ≡ last_under path }
{
    match path {
        Path::Whole(space) => Place {
            space,
            group: u16::MAX,
            key: i64::MAX,
        },
        Path::Group(space, group) => Place {
            space,
            group,
            key: i64::MAX,
        },
        Path::Key(place) => place,
    }
}

fn push_row(
    alloc: Global,
    rows: &mut Items<Stored>,
    place: Place,
    slot: &Slot,
) -> Result<(), NoMemory>
    ensures { OnOk result (rows.new ≡ rows.old ++ rows_of ((place, slot.now) ∷ [])) }
{
    if let Some(row) = &slot.row {
        let row = row.copy(alloc)?;
        rows.push(Stored { place, row })?;
    }
    Ok(())
}

/// The rows under a path.
pub(crate) fn rows_in(alloc: Global, map: &Map, path: Path) -> Result<Items<Stored>, NoMemory>
    requires { AreSound map.now.entries }
    ensures rows { IfOk result (λ found. found ≡ rows_under path (rows_of map.now.entries)) }
    ensures ascending { IfOk result (Ascends (λ a b. place_cmp a.place b.place)) }
    ensures fit { IfOk result (All IsStored) }
{
    let mut rows = Items::new(alloc);
    for (place, slot) in map.range((Bound::Included(first(path)), Bound::Included(last(path)))) {
        push_row(alloc, &mut rows, *place, slot)?;
    }
    Ok(rows)
}

/// The first keys of a group.
pub(crate) fn keys_in(
    alloc: Global,
    map: &Map,
    space: Space,
    group: u16,
    most: u32,
) -> Result<Items<i64>, NoMemory>
    requires { AreSound map.now.entries }
    ensures keys { IfOk result (λ found. found ≡ take most (keys_of (rows_under (Group space group) (rows_of map.now.entries)))) }
    ensures ascending { IfOk result (Ascends int_cmp) }
{
    let path = Path::Group(space, group);
    let mut keys = Items::new(alloc);
    for (place, slot) in map.range((Bound::Included(first(path)), Bound::Included(last(path)))) {
        if keys.len() >= most as usize {
            break;
        }
        push_key(&mut keys, *place, slot)?;
    }
    Ok(keys)
}

fn push_key(keys: &mut Items<i64>, place: Place, slot: &Slot) -> Result<(), NoMemory>
    ensures few { OnOk result (length keys.new ≤ length keys.old + 1) }
    ensures pushed { OnOk result (keys.new ≡ keys.old ++ keys_of (rows_of ((place, slot.now) ∷ []))) }
{
    if slot.row.is_some() {
        keys.push(place.key)?;
    }
    Ok(())
}
