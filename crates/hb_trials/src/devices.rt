// The devices in memory over which the other trials run.
use hb_edge::{Clock, Disk, Failed, Sink, Source};
use hb_memdisk::{MemDisk, MemSink, MemSource};
use hb_types::{Bytes, NoMemory};
use std::alloc::Global;
use std::test::Fail;

pub(crate) fn empty_disk(alloc: Global) -> MemDisk {
    MemDisk::new(
        alloc,
        Bytes::new(Vec::new(alloc)),
        Vec::new(alloc),
        Vec::new(alloc),
    )
}

/// A disk whose one listed call fails, and whose second restart goes by the pick.
pub(crate) fn failing_disk(alloc: Global, failing: u64, pick: u16) -> Result<MemDisk, NoMemory> {
    let listed = [failing].to_vec(alloc)?;
    let picks = [0, pick].to_vec(alloc)?;
    Ok(MemDisk::new(alloc, Bytes::new(Vec::new(alloc)), listed, picks))
}

fn restarted(disk: &mut MemDisk) -> bool {
    let mut clock = Clock::new();
    disk.sync(&mut clock).is_ok()
        && disk.write_at(&mut clock, 3, &[9, 9]).is_ok()
        && disk.restart(&mut clock).is_ok()
}

fn is_left(alloc: Global, pick: u16, bytes: &[u8]) -> Result<bool, NoMemory> {
    let held = Bytes::new([0, 1, 2, 3].to_vec(alloc)?);
    let mut disk = MemDisk::new(alloc, held, Vec::new(alloc), [pick].to_vec(alloc)?);
    Ok(restarted(&mut disk) && disk.bytes() == bytes)
}

#[test]
fn a_restart_goes_by_its_pick(rt: HostRuntime) -> Result<(), Fail> {
    let alloc = rt.alloc();
    let synced = is_left(alloc, 0, &[0, 1, 2, 3])?;
    let written = is_left(alloc, 1, &[0, 1, 2, 9, 9])?;
    let filled = is_left(alloc, 257, &[0, 1, 2, 255, 255])?;
    assert_eq!(rt; (synced, written, filled), (true, true, true));
    Ok(())
}

fn takes(source: &mut MemSource) -> [Result<usize, Failed>; 4] {
    let mut piece = [0; 8];
    let first = source.take(&mut piece);
    let second = source.take(&mut piece);
    let third = source.take(&mut piece);
    [first, second, third, source.take(&mut piece)]
}

fn puts(sink: &mut MemSink) -> (bool, bool) {
    let mut clock = Clock::new();
    let first = sink.put(&mut clock, &[5]).is_ok();
    (first, sink.put(&mut clock, &[6]).is_ok())
}

#[test]
fn a_listed_call_fails(rt: HostRuntime) -> Result<(), Fail> {
    let alloc = rt.alloc();
    let mut source = MemSource::new(Bytes::new([1, 2, 3].to_vec(alloc)?), 2, [2].to_vec(alloc)?);
    assert_eq!(rt; takes(&mut source), [Ok(2), Err(Failed), Ok(1), Ok(0)]);
    let mut sink = MemSink::new(alloc, [1].to_vec(alloc)?)?;
    assert_eq!(rt;
        (puts(&mut sink), sink.bytes()),
        ((false, true), [6].as_slice())
    );
    Ok(())
}
