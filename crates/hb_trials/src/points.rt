// Points with each device call failing in turn, over each way in which a restart may leave the disk.
// Points on a disk in memory, with each of its calls failing in turn.
ghost use Rattle.std.specs.Prelude.{◌≡◌, ◌≤◌, ◌^◌, is_some, true};
ghost use Rattle.hb_whole.specs.Store.{begun_in};

use crate::devices::failing_disk;
use crate::store::{changed, put};
use hb_edge::{Clock, Disk};
use hb_memdisk::MemDisk;
use hb_store::{Flushed, Point, Store};
use hb_types::{Number, Path, Space};
use hb_whole::Whole;
use std::alloc::Global;
use std::test::Fail;

// Adds a row by a key, and makes a point with the key as its floor: whether it was made.
fn point(alloc: Global, store: &mut Whole, disk: &mut MemDisk, clock: &mut Clock, key: u8) -> bool {
    if let Some(change) = put(alloc, key, 0x61) {
        if changed(store, change).is_err() {
            return false;
        }
    }
    let point = Point {
        from: 7,
        floor: Number(key as u64),
    };
    match store.begin(point) {
        Ok(()) => pieces(store, disk, clock),
        Err(_) => false,
    }
}

fn pieces(store: &mut Whole, disk: &mut MemDisk, clock: &mut Clock) -> bool
    requires { is_some (begun_in store.old) ≡ true }
{
    match store.flush_one(disk, clock) {
        Ok(_) => finished(store, disk, clock),
        Err(_) => false,
    }
}

fn finished(store: &mut Whole, disk: &mut MemDisk, clock: &mut Clock) -> bool
    requires { is_some (begun_in store.old) ≡ true }
{
    match store.finish(disk, clock) {
        Ok(Flushed::Last) => true,
        _ => false,
    }
}

fn opened(alloc: Global, disk: &mut MemDisk, clock: &mut Clock) -> Option<(Whole, u64)> {
    let mut store = Whole::new(alloc);
    match disk.restart(clock) {
        Ok(()) => match store.load(disk, clock) {
            Ok(point) => Some((store, point.floor.0)),
            Err(_) => None,
        },
        Err(_) => None,
    }
}

// What a restart finds: 10 times the floor and the count of rows; 99 where it fails.
fn found(alloc: Global, disk: &mut MemDisk, clock: &mut Clock) -> u64 {
    match opened(alloc, disk, clock) {
        Some((store, floor)) => floor.wrapping_mul(10).wrapping_add(rows(&store)),
        None => 99,
    }
}

fn rows(store: &Whole) -> u64 {
    let path = Path::Whole(Space {
        area: 257,
        table: 1,
    });
    match store.list(&path) {
        Ok(rows) => rows.len() as u64 % 8,
        Err(_) => 9,
    }
}

// Two points, one after another, until a call fails: how many were made.
fn points(alloc: Global, disk: &mut MemDisk, clock: &mut Clock) -> u64 {
    match opened(alloc, disk, clock) {
        Some((mut store, _)) => {
            if !point(alloc, &mut store, disk, clock, 1) {
                return 0;
            }
            if !point(alloc, &mut store, disk, clock, 2) {
                return 1;
            }
            2
        }
        None => 0,
    }
}

// What a restart finds after these, the second one where the first fails, and how many points were made.
fn run(alloc: Global, failing: u64, pick: u16) -> (u64, u64) {
    match failing_disk(alloc, failing, pick) {
        Ok(mut disk) => {
            let mut clock = Clock::new();
            let made = points(alloc, &mut disk, &mut clock);
            let again = found(alloc, &mut disk, &mut clock);
            if again != 99 {
                return (again, made);
            }
            (found(alloc, &mut disk, &mut clock), made)
        }
        Err(_) => (99, 0),
    }
}

fn is_whole(found: u64, made: u64) -> bool {
    match found {
        0 => made == 0,
        11 => made <= 1,
        22 => true,
        _ => false,
    }
}

fn each_is_whole(alloc: Global) -> bool {
    let mut right = true;
    for failing in 1..24u64 {
        for pick in [0u16, 1, 2, 3] {
            let (found, made) = run(alloc, failing, pick);
            right &= is_whole(found, made);
        }
    }
    right
}

#[test]
fn a_point_stands_whole_or_not_at_all(rt: HostRuntime) {
    let right = each_is_whole(rt.alloc());
    let without_failure = run(rt.alloc(), 99, 0);
    assert_eq!(rt; (right, without_failure), (true, (22, 2)));
}
