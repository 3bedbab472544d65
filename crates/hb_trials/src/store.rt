// A store against a plain list over 3,000 changes.
// The store against a plain list of rows, over many changes.
ghost use Rattle.std.specs.Prelude.{IfSome, ◌≤◌};
ghost use Rattle.hb_types.specs.Rows.{IsRow};
ghost use Rattle.hb_types.specs.Records.{IsChange};

use hb_codec::decode_change;
use hb_store::Store;
use hb_types::{Change, NoMemory, Path, Place, Space};
use hb_whole::Whole;
use std::alloc::Global;
use std::test::Fail;

const SPACE: Space = Space {
    area: 257,
    table: 1,
};

// A change that puts a row of one text of one byte: at area 257, table 1, group 0, key 0.
const PUT: [u8; 22] = [
    1, 1, 1, 0, 0, 0, 0, 0, 0, 0, 0, 0, 0, 0, 1, 5, 0, 1, 1, 2, 1, 0x61,
];

// One that takes it away.
const REMOVE: [u8; 15] = [1, 1, 1, 0, 0, 0, 0, 0, 0, 0, 0, 0, 0, 0, 0];

pub(crate) fn put(alloc: Global, key: u8, text: u8) -> Option<Change>
    ensures { IfSome result (λ change. IfSome change.row IsRow) }
{
    let mut bytes = PUT;
    bytes[6] = key;
    bytes[21] = text;
    change_of(alloc, &bytes)
}

fn remove(alloc: Global, key: u8) -> Option<Change>
    ensures { IfSome result (λ change. IfSome change.row IsRow) }
{
    let mut bytes = REMOVE;
    bytes[6] = key;
    change_of(alloc, &bytes)
}

fn change_of(alloc: Global, bytes: &[u8]) -> Option<Change>
    ensures { IfSome result (λ change. IfSome change.row IsRow) }
{
    match decode_change(alloc, bytes) {
        Ok((change, _)) => Some(change),
        Err(_) => None,
    }
}

// Takes room for a change, and makes it.
pub(crate) fn changed(store: &mut Whole, change: Change) -> Result<(), NoMemory>
    requires { IfSome change.row IsRow }
{
    let changes = [change];
    store.room(&changes)?;
    let [change] = changes;
    store.apply(change);
    Ok(())
}

// Whether each of these keys has the row in the store that it has in the list, where 0 stands for none.
fn agrees(store: &Whole, list: &[u8; 64]) -> bool {
    let mut right = true;
    for key in 0..64usize {
        let place = Place {
            space: SPACE,
            group: 0,
            key: key as i64,
        };
        let text = match store.row(&place) {
            Some(row) => row.last().copied().unwrap_or(0),
            None => 0,
        };
        right &= text == list[key];
    }
    right
}

fn rows_in(list: &[u8; 64]) -> usize {
    list.iter().filter(|text| **text != 0).count()
}

// The next of a series of numbers without order.
fn next(number: u32) -> u32 {
    number.wrapping_mul(1_664_525).wrapping_add(1_013_904_223)
}

// Puts or removes the row of a key, in both.
fn step(alloc: Global, store: &mut Whole, list: &mut [u8; 64], number: u32) -> bool {
    let key = ((number >> 10) % 64) as u8;
    let text = ((number >> 20) % 4) as u8;
    list[key as usize] = text;
    let change = if text == 0 {
        remove(alloc, key)
    } else {
        put(alloc, key, text)
    };
    match change {
        Some(change) => changed(store, change).is_ok(),
        None => false,
    }
}

fn lists_all(store: &Whole, list: &[u8; 64]) -> bool {
    match store.list(&Path::Whole(SPACE)) {
        Ok(rows) => rows.len() == rows_in(list),
        Err(_) => false,
    }
}

fn stays_a_list(alloc: Global) -> bool {
    let mut store = Whole::new(alloc);
    let mut list = [0u8; 64];
    let mut number: u32 = 7;
    let mut right = true;
    for _ in 0..3000u32 {
        number = next(number);
        right &= step(alloc, &mut store, &mut list, number);
        right &= agrees(&store, &list);
        right &= lists_all(&store, &list);
    }
    right
}

#[test]
fn a_store_is_a_list_of_rows(rt: HostRuntime) {
    let right = stays_a_list(rt.alloc());
    assert_eq!(rt; right, true);
}
