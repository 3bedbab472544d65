// A file as a disk.
ghost use Rattle.std.specs.Prelude.{◌≡◌, max, ◌≤◌};
ghost use Rattle.hb_edge.specs.Causes.{HasCause};
ghost use Rattle.hb_edge.specs.Moments.{tick};

use crate::files::{discard, open};
use hb_edge::{Clock, Disk, Failed};
use std::fs::File;
use std::io;
use std::os::unix::fs::FileExt;
use std::rt::Files;

/// A file of the current folder that nobody else has. Where it can't be opened, made or taken, each call fails.
#[derive(Drop)]
pub struct FileDisk {
    file: io::Result<File>,
    is_made: bool,
    cause: Option<io::Error>,
    last: u128,
    faults: u64,
}

/// Fills the piece from a place on, with 0 past the end.
fn read_whole(file: &File, at: u64, into: &mut [u8]) -> io::Result<()> {
    into.fill(0);
    let mut done = 0;
    'piece: while done < into.len() {
        let place = match at.checked_add(done as u64) {
            Some(place) if place < 1 << 63 => place,
            _ => return Ok(()),
        };
        let count = file.read_at(&mut into[done..], place)?;
        if count == 0 {
            return Ok(());
        }
        done += count;
    }
    Ok(())
}

/// Takes away what lies past a length.
fn cut_to(file: &File, length: u64) -> io::Result<()> {
    if length < file.metadata()?.len() {
        file.set_len(length)?;
    }
    Ok(())
}

impl FileDisk {
    pub fn new<R: Files<File = File>>(rt: &R, name: &str) -> Self
        ensures last { result.last ≡ 0 }
        ensures faults { result.faults ≡ 0 }
    {
        let (file, is_made) = open(rt, name);
        let cause = file.as_ref().err().copied();
        FileDisk {
            file,
            is_made,
            cause,
            last: 0,
            faults: 0,
        }
    }

    /// What the system said of the opening, if it failed, else of the first call that did.
    pub fn cause(&self) -> Option<io::Error> {
        self.cause
    }

    /// Takes the file of this name, which is this disk's, out of its folder again where this disk made it and it is empty.
    pub fn discard<R: Files>(&self, rt: &R, name: &str) {
        if let Ok(file) = &self.file {
            if self.is_made {
                discard(rt, name, file);
            }
        }
    }

    fn opened(&self) -> io::Result<&File> {
        match &self.file {
            Ok(file) => Ok(file),
            Err(cause) => Err(*cause),
        }
    }

    fn measure(&self) -> io::Result<u64> {
        Ok(self.opened()?.metadata()?.len())
    }

    /// One call more. The answer of the system, with its count of faults.
    fn answer<T>(&mut self, clock: &mut Clock, answer: io::Result<T>) -> Result<T, Failed>
        ensures clock { clock.new ≡ tick clock.old }
        ensures last { self.new.last ≡ max self.old.last clock.new }
        ensures cause { HasCause self.old.faults self.new.faults result }
    {
        clock.tick();
        self.last = self.last.max(clock.moment());
        match answer {
            Ok(value) => Ok(value),
            Err(cause) => {
                self.cause = self.cause.or(Some(cause));
                self.faults = self.faults.saturating_add(1);
                Err(Failed)
            }
        }
    }
}

impl Disk for FileDisk {
    ghost use Rattle.std.specs.Prelude.{None};

    ghost content = { λ disk. None };

    ghost left = { λ disk m image. ⊥ };

    ghost last = { λ disk. disk.last };

    ghost faults = { λ disk. disk.faults };

    ghost as_read = { λ disk. tt };

    ghost stands = { λ disk m image later is. is };

    ghost stands_on = { λ disk m image later is. is };

    fn length(&mut self, clock: &mut Clock) -> Result<u64, Failed> {
        let length = self.measure();
        self.answer(clock, length)
    }

    fn read(&mut self, clock: &mut Clock, at: u64, into: &mut [u8]) -> Result<(), Failed> {
        let done = self.opened().and_then(|file| read_whole(file, at, into));
        self.answer(clock, done)
    }

    fn write_at(&mut self, clock: &mut Clock, at: u64, bytes: &[u8]) -> Result<(), Failed> {
        let done = self.opened().and_then(|file| file.write_all_at(bytes, at));
        self.answer(clock, done)
    }

    fn cut(&mut self, clock: &mut Clock, length: u64) -> Result<(), Failed> {
        let done = self.opened().and_then(|file| cut_to(file, length));
        self.answer(clock, done)
    }

    fn sync(&mut self, clock: &mut Clock) -> Result<(), Failed> {
        let done = self.opened().and_then(|file| file.sync_data());
        self.answer(clock, done)
    }

    /// A file has no power to switch off: what was written is synced.
    fn restart(&mut self, clock: &mut Clock) -> Result<(), Failed> {
        self.sync(clock)
    }
}
