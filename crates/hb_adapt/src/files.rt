// A file that one run alone has, and its folder.
use std::fs::{self, File, OpenOptions, TryLockError};
use std::io;
use std::io::ErrorKind;
use std::os::unix::fs::MetadataExt;
use std::rt::Files;

/// Opens the file, or makes it. Where it is none yet but a link to one, it is made where the link leads.
fn open_or_make<R: Files<File = File>>(rt: &R, name: &str) -> (io::Result<File>, bool) {
    let mut options = OpenOptions::new();
    options.read(true).write(true);
    match options.create_new(true).open(rt, name) {
        Ok(file) => (Ok(file), true),
        Err(_) => (options.create_new(false).create(true).open(rt, name), false),
    }
}

fn is_in_use() -> io::Error {
    io::Error::new(ErrorKind::ResourceBusy, "another run has it")
}

/// Locks the file until it is closed, unless somebody has it.
fn lock(file: &File) -> io::Result<()> {
    match file.try_lock() {
        Ok(()) => Ok(()),
        Err(TryLockError::WouldBlock) => Err(is_in_use()),
        Err(TryLockError::Error(cause)) => Err(cause),
    }
}

/// Whether the name leads to this open file: who had the file before may have discarded it since it was opened.
fn is_named<R: Files>(rt: &R, name: &str, file: &File) -> io::Result<bool> {
    let found = fs::metadata(rt, name)?;
    let opened = file.metadata()?;
    Ok(found.dev() == opened.dev() && found.ino() == opened.ino())
}

/// Takes an open file for this run alone.
fn take<R: Files>(rt: &R, name: &str, file: &File) -> io::Result<()> {
    lock(file)?;
    if is_named(rt, name, file)? {
        Ok(())
    } else {
        Err(is_in_use())
    }
}

/// Syncs the current folder, so that a file that was made stays.
fn sync_folder<R: Files<File = File>>(rt: &R) -> io::Result<()> {
    File::open(rt, ".")?.sync_all()
}

/// Takes a file of this name, which this run has, out of its folder if it is empty.
pub(crate) fn discard<R: Files>(rt: &R, name: &str, file: &File) {
    if file.metadata().is_ok_and(|data| data.len() == 0) {
        let _ = fs::remove_file(rt, name);
    }
}

/// Makes an open file this run's own, and makes it stay.
fn own<R: Files<File = File>>(rt: &R, name: &str, file: File, is_made: bool) -> io::Result<File> {
    take(rt, name, &file)?;
    match sync_folder(rt) {
        Ok(()) => Ok(file),
        Err(cause) => {
            if is_made {
                discard(rt, name, &file);
            }
            Err(cause)
        }
    }
}

/// A file of the current folder for this run alone, and whether this opening made it.
pub(crate) fn open<R: Files<File = File>>(rt: &R, name: &str) -> (io::Result<File>, bool) {
    match open_or_make(rt, name) {
        (Ok(file), is_made) => (own(rt, name, file, is_made), is_made),
        (Err(cause), is_made) => (Err(cause), is_made),
    }
}
