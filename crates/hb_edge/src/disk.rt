// A disk, by what a read gives and what a stop at each moment may leave.
ghost use Rattle.std.specs.Prelude.{◌≡◌, ◌+◌, ◌^◌, ◌≤◌, max, ℕ, List, length, take, Option, is_some, IfSome, IfOk, OnOk, OnErr};
ghost use Rattle.std.specs.Option.{option_map};
ghost use Rattle.hb_edge.specs.Causes.{HasCause};
ghost use Rattle.hb_edge.specs.Images.{window, written, Torn, Cut, Same};
ghost use Rattle.hb_edge.specs.Moments.{tick};
ghost use Rattle.hb_edge.specs.Stops.{Passes, Only};

use crate::{Clock, Failed};

/// Each call is one moment of the clock. A disk that doesn't tell its content, as a real file, has none, and leaves
/// nothing that is known.
pub trait Disk {
    /// What a read gives, where it is told.
    ghost content: { Self → Option (List ℕ) };

    /// A stop at this moment may leave this image: it falls after the last call with a moment of at most this one.
    ghost left: { Self → ℕ → List ℕ → Type 0 };

    /// The moment of the last call.
    ghost last: { Self → ℕ };

    /// How often a call has failed.
    ghost faults: { Self → ℕ };

    /// The count of bytes.
    fn length(&mut self, clock: &mut Clock) -> Result<u64, Failed>
        ensures length { IfOk result (λ n. IfSome (content self.old) (λ bytes. n ≡ length bytes)) }
        ensures content { content self.new ≡ content self.old }
        ensures clock { clock.new ≡ tick clock.old }
        ensures last { last self.new ≡ max (last self.old) clock.new }
        ensures stop { Passes Same clock.new (last self.old) (left self.old) (left self.new) }
        ensures cause { HasCause (faults self.old) (faults self.new) result };

    /// Fills the piece from a place on. A place past the end gives 0.
    fn read(&mut self, clock: &mut Clock, at: u64, into: &mut [u8]) -> Result<(), Failed>
        ensures bytes { OnOk result (IfSome (content self.old) (λ bytes. into.new ≡ window bytes at (length into.old))) }
        ensures content { content self.new ≡ content self.old }
        ensures clock { clock.new ≡ tick clock.old }
        ensures last { last self.new ≡ max (last self.old) clock.new }
        ensures stop { Passes Same clock.new (last self.old) (left self.old) (left self.new) }
        ensures cause { HasCause (faults self.old) (faults self.new) result };

    /// Writes over what is there, and past the end. Until a sync a stop may leave any bytes in the range, after `Failed` too.
    fn write_at(&mut self, clock: &mut Clock, at: u64, bytes: &[u8]) -> Result<(), Failed>
        requires { at + length bytes.now ≤ 2 ^ 62 }
        ensures written { OnOk result (content self.new ≡ option_map (written at bytes.now) (content self.old)) }
        ensures told { is_some (content self.new) ≡ is_some (content self.old) }
        ensures clock { clock.new ≡ tick clock.old }
        ensures last { last self.new ≡ max (last self.old) clock.new }
        ensures stop { Passes (Torn at (length bytes.now)) clock.new (last self.old) (left self.old) (left self.new) }
        ensures cause { HasCause (faults self.old) (faults self.new) result };

    /// Takes away what lies past a length. Until a sync a stop may leave any length between, after `Failed` too.
    fn cut(&mut self, clock: &mut Clock, length: u64) -> Result<(), Failed>
        ensures cut { OnOk result (content self.new ≡ option_map (take length) (content self.old)) }
        ensures told { is_some (content self.new) ≡ is_some (content self.old) }
        ensures clock { clock.new ≡ tick clock.old }
        ensures last { last self.new ≡ max (last self.old) clock.new }
        ensures stop { Passes (Cut length) clock.new (last self.old) (left self.old) (left self.new) }
        ensures cause { HasCause (faults self.old) (faults self.new) result };

    /// After `Ok` a stop leaves what a read gives. After `Failed` all that was pending stays so.
    fn sync(&mut self, clock: &mut Clock) -> Result<(), Failed>
        ensures kept { OnOk result (IfSome (content self.old) (Only (left self.new) (max (last self.old) clock.new))) }
        ensures content { content self.new ≡ content self.old }
        ensures clock { clock.new ≡ tick clock.old }
        ensures last { last self.new ≡ max (last self.old) clock.new }
        ensures stop { Passes Same clock.new (last self.old) (left self.old) (left self.new) }
        ensures cause { HasCause (faults self.old) (faults self.new) result };

    /// Power off and on: reads then give one of the images left, and nothing is pending.
    fn restart(&mut self, clock: &mut Clock) -> Result<(), Failed>
        ensures reads { OnOk result (IfSome (content self.new) (left self.old (last self.old))) }
        ensures kept { OnOk result (IfSome (content self.new) (Only (left self.new) (max (last self.old) clock.new))) }
        ensures told { is_some (content self.new) ≡ is_some (content self.old) }
        ensures same { OnErr result (content self.new ≡ content self.old) }
        ensures clock { clock.new ≡ tick clock.old }
        ensures last { last self.new ≡ max (last self.old) clock.new }
        ensures stop { Passes Same clock.new (last self.old) (left self.old) (left self.new) }
        ensures cause { HasCause (faults self.old) (faults self.new) result };

    /// A disk as it reads is one of its images.
    ghost as_read: { (disk : Self) → IfSome (content disk) (left disk (last disk)) };

    /// From the last call on nothing changes.
    ghost stands: { (disk : Self) (m : ℕ) (image : List ℕ) → last disk ≤ m → left disk m image → left disk (last disk) image };

    ghost stands_on: { (disk : Self) (m : ℕ) (image : List ℕ) → last disk ≤ m → left disk (last disk) image → left disk m image };
}
