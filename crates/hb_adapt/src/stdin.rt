// A reader as a source.
ghost use Rattle.std.specs.Prelude.{◌≡◌, ◌^◌};

use hb_edge::{Failed, Source};
use std::io;
use std::io::{ErrorKind, Read};

const MOST: u64 = 1 << 62;

/// Gives at most 2^62 bytes; a call past them fails.
#[derive(Drop)]
pub struct Stdin<I: Read> {
    reader: I,
    room: u64,
    cause: Option<io::Error>,
    faults: u64,
}

impl<I: Read> Stdin<I> {
    pub fn new(reader: I) -> Self
        ensures bound { result.room ≡ 2 ^ 62 }
        ensures faults { result.faults ≡ 0 }
    {
        Stdin {
            reader,
            room: MOST,
            cause: None,
            faults: 0,
        }
    }

    /// What the system said of the first call that failed.
    pub fn cause(&self) -> Option<io::Error> {
        self.cause
    }
}

impl<I: Read> Source for Stdin<I> {
    ghost use Rattle.std.specs.Prelude.{None};

    ghost left = { λ source. None };

    ghost bound = { λ source. source.room };

    ghost faults = { λ source. source.faults };

    fn take(&mut self, into: &mut [u8]) -> Result<usize, Failed> {
        if into.is_empty() {
            return Ok(0);
        }
        let most = (into.len() as u64).min(self.room) as usize;
        let mut cause = io::Error::from(ErrorKind::FileTooLarge);
        if most > 0 {
            match self.reader.read(&mut into[..most]) {
                Ok(count) => {
                    self.room -= count as u64;
                    return Ok(count);
                }
                Err(found) => cause = found,
            }
        }
        self.cause = self.cause.or(Some(cause));
        self.faults = self.faults.saturating_add(1);
        Err(Failed)
    }
}
