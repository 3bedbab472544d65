// Why a command stops before its end.
ghost use Rattle.std.specs.Prelude.{◌≡◌};
ghost use Rattle.hb_acts.specs.declared.stop.Stop.TheVariants.{Memory as OfMemory};
ghost use Rattle.hb_acts.specs.Stops.{code_of, status_of, word_of};

use hb_lines::LineFault;
use hb_types::NoMemory;

/// Why the run of a script stops before its end.
#[derive(Clone, Copy, Debug, PartialEq, Eq)]
pub enum Stop {
    Source,
    Sink,
    Memory,
    /// A line of more than 8,192 bytes.
    Line,
}

impl Stop {
    /// The exit status.
    pub(crate) fn code(self) -> u8
        ensures { result ≡ code_of self }
    {
        match self {
            Stop::Source => 3,
            Stop::Sink => 4,
            Stop::Memory => 7,
            Stop::Line => 8,
        }
    }
}

/// The exit status of a run that ended so.
pub fn status(ended: Result<(), Stop>) -> u8
    ensures { result ≡ status_of ended }
{
    match ended {
        Ok(()) => 0,
        Err(stop) => stop.code(),
    }
}

/// The word of an exit status. Status 0 has none.
pub fn status_word(status: u8) -> &'static str
    ensures { result.now ≡ word_of status }
{
    match status {
        1 => "usage",
        3 => "source",
        4 => "sink",
        5 => "disk",
        6 => "damaged",
        7 => "memory",
        8 => "line",
        _ => "",
    }
}

impl From<LineFault> for Stop {
    ghost use Rattle.hb_acts.specs.Stops.{line_stop};

    ghost from_gives = { λ fault stop. stop ≡ line_stop fault };

    fn from(fault: LineFault) -> Self {
        match fault {
            LineFault::Source => Stop::Source,
            LineFault::TooLong => Stop::Line,
            LineFault::NoMemory => Stop::Memory,
        }
    }
}

impl From<NoMemory> for Stop {
    ghost from_gives = { λ _ stop. stop ≡ OfMemory };

    fn from(_: NoMemory) -> Self {
        Stop::Memory
    }
}
