// Where a script comes from.
ghost use Rattle.std.specs.Prelude.{◌≡◌, ◌+◌, ◌≤◌, ℕ, List, Option, length, IfOk, MatchResult};
ghost use Rattle.hb_edge.specs.Causes.{HasCause};
ghost use Rattle.hb_edge.specs.Streams.{TakesFront};

use crate::Failed;

pub trait Source {
    /// The bytes that are left, where the source tells them.
    ghost left: { Self → Option (List ℕ) };

    /// A bound on the bytes that it can still give.
    ghost bound: { Self → ℕ };

    /// How often a call has failed.
    ghost faults: { Self → ℕ };

    /// Takes the next bytes, and says how many. None for a piece that isn't empty is the end.
    fn take(&mut self, into: &mut [u8]) -> Result<usize, Failed>
        ensures count { IfOk result (λ n. n ≤ length into.new) }
        ensures bytes { TakesFront (left self.old) (left self.new) result into.new }
        ensures bound { MatchResult result (λ n. bound self.new + n ≡ bound self.old) (λ _. bound self.new ≡ bound self.old) }
        ensures cause { HasCause (faults self.old) (faults self.new) result };
}
