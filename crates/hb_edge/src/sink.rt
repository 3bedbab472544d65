// Where the replies go.
ghost use Rattle.std.specs.Prelude.{◌≡◌, ◌≤◌, ◌<◌, max, ℕ, List, Option, OnOk, OnErr};
ghost use Rattle.hb_edge.specs.Causes.{HasCause};
ghost use Rattle.hb_edge.specs.Moments.{tick};
ghost use Rattle.hb_edge.specs.Streams.{with_end, PutsPart};

use crate::{Clock, Failed};

/// Each put is one moment of the clock.
pub trait Sink {
    /// All that was put, where the sink tells it.
    ghost held: { Self → Option (List ℕ) };

    /// What was out at a moment: after the last put with a moment of at most this one.
    ghost shown: { Self → ℕ → Option (List ℕ) };

    /// The moment of the last put.
    ghost last: { Self → ℕ };

    /// How often a put has failed.
    ghost faults: { Self → ℕ };

    /// Puts all of the piece, or where it fails some front of it.
    fn put(&mut self, clock: &mut Clock, bytes: &[u8]) -> Result<(), Failed>
        ensures all { OnOk result (held self.new ≡ with_end bytes.now (held self.old)) }
        ensures part { OnErr result (PutsPart (held self.old) (held self.new) bytes.now) }
        ensures before { (m : ℕ) → m < clock.new → shown self.new m ≡ shown self.old m }
        ensures clock { clock.new ≡ tick clock.old }
        ensures last { last self.new ≡ max (last self.old) clock.new }
        ensures cause { HasCause (faults self.old) (faults self.new) result };

    /// From the last put on all that was put is shown.
    ghost stands: { (sink : Self) (m : ℕ) → last sink ≤ m → shown sink m ≡ held sink };
}
