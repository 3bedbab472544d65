// A writer as a sink.
ghost use Rattle.std.specs.Prelude.{◌≡◌};

use hb_edge::{Clock, Failed, Sink};
use std::io::{self, Write};

/// Each put is flushed, so that a reply is out once it was put.
#[derive(Drop)]
pub struct Stdout<W: Write> {
    writer: W,
    cause: Option<io::Error>,
    last: u128,
    faults: u64,
}

fn put_all<W: Write>(writer: &mut W, bytes: &[u8]) -> io::Result<()> {
    writer.write_all(bytes)?;
    writer.flush()
}

impl<W: Write> Stdout<W> {
    pub fn new(writer: W) -> Self
        ensures last { result.last ≡ 0 }
        ensures faults { result.faults ≡ 0 }
    {
        Stdout {
            writer,
            cause: None,
            last: 0,
            faults: 0,
        }
    }

    /// What the system said of the first call that failed.
    pub fn cause(&self) -> Option<io::Error> {
        self.cause
    }
}

impl<W: Write> Sink for Stdout<W> {
    ghost use Rattle.std.specs.Prelude.{None, refl};

    ghost held = { λ sink. None };

    ghost shown = { λ sink m. None };

    ghost last = { λ sink. sink.last };

    ghost faults = { λ sink. sink.faults };

    ghost stands = { λ sink m later. refl };

    fn put(&mut self, clock: &mut Clock, bytes: &[u8]) -> Result<(), Failed> {
        clock.tick();
        self.last = self.last.max(clock.moment());
        match put_all(&mut self.writer, bytes) {
            Ok(()) => Ok(()),
            Err(cause) => {
                self.cause = self.cause.or(Some(cause));
                self.faults = self.faults.saturating_add(1);
                Err(Failed)
            }
        }
    }
}
