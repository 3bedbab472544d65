// The disks' files.
use hb_adapt::FileDisk;
use hb_types::NoMemory;
use std::alloc::Global;
use std::fs::File;
use std::rt::Files;

/// In the order in which the disks are handed over. A system of N back ends has the first 3 + 2N.
pub(crate) const FILES: [&str; 19] = [
    "fes1.log",
    "ds.log",
    "ds.area",
    "bes1.log",
    "bes1.area",
    "bes2.log",
    "bes2.area",
    "bes3.log",
    "bes3.area",
    "bes4.log",
    "bes4.area",
    "bes5.log",
    "bes5.area",
    "bes6.log",
    "bes6.area",
    "bes7.log",
    "bes7.area",
    "bes8.log",
    "bes8.area",
];

pub(crate) fn file_count(back_ends: u8) -> usize {
    3 + 2 * (back_ends as usize)
}

/// Opens so many files, in their order, up to the first that can't be had. Every run begins with the same file, so of
/// two runs at once one gets no file at all.
pub(crate) fn open_disks<R: Files<File = File>>(
    rt: &R,
    alloc: Global,
    count: usize,
) -> Result<Vec<FileDisk>, NoMemory> {
    let mut disks = Vec::with_capacity(alloc, count)?;
    for name in FILES.iter().take(count) {
        let disk = FileDisk::new(rt, name);
        let is_open = disk.cause().is_none();
        disks.push(disk)?;
        if !is_open {
            break;
        }
    }
    Ok(disks)
}

pub(crate) fn are_open(disks: &[FileDisk]) -> bool {
    disks.iter().all(|disk| disk.cause().is_none())
}

/// Takes away the files that were made for these disks and are still empty.
pub(crate) fn discard<R: Files>(rt: &R, disks: &[FileDisk]) {
    for (name, disk) in FILES.iter().zip(disks) {
        disk.discard(rt, name);
    }
}
