// A source in memory.
ghost use Rattle.std.specs.Prelude.{◌≡◌, ◌+◌, ◌≤◌, ◌↔◌, min, length, IfOk, MatchResult, IsOk, false, if◌then◌else◌};
ghost use Rattle.hb_edge.specs.Causes.{risen, HasCause};
ghost use Rattle.hb_edge.specs.Streams.{TakesFront};
ghost use Rattle.hb_memdisk.specs.Listed.{is_listed};

use hb_edge::{Failed, Source};
use hb_types::Bytes;

/// Gives its bytes piece by piece. Which of its calls fail is given with it.
#[derive(Drop)]
pub struct MemSource {
    bytes: Bytes,
    /// How many bytes were given.
    given: usize,
    piece: u32,
    failing: Vec<u64>,
    asked: u64,
    failed: u64,
    ghost within: { given ≤ length bytes },
    ghost gives: { 1 ≤ piece },
}

impl MemSource {
    ghost use Rattle.hb_memdisk.specs.MemSource.{rest_of};

    /// Each call gives at most `piece` bytes. The calls whose numbers, from 1, are listed fail.
    pub fn new(bytes: Bytes, piece: u32, failing: Vec<u64>) -> MemSource
        requires { 1 ≤ piece }
        ensures rest { rest_of result ≡ bytes }
        ensures piece { result.piece ≡ piece }
        ensures failing { result.failing ≡ failing }
        ensures asked { result.asked ≡ 0 }
        ensures failed { result.failed ≡ 0 }
    {
        MemSource {
            bytes,
            given: 0,
            piece,
            failing,
            asked: 0,
            failed: 0,
        }
    }
}

impl Source for MemSource {
    ghost use Rattle.hb_memdisk.specs.MemSource.{told_of, bound_of};

    ghost left = { told_of };

    ghost bound = { bound_of };

    ghost faults = { λ source. source.failed };

    fn take(&mut self, into: &mut [u8]) -> Result<usize, Failed>
        ensures count { IfOk result (λ n. n ≤ length into.new) }
        ensures bytes { TakesFront (told_of self.old) (told_of self.new) result into.new }
        ensures bound { MatchResult result (λ n. bound_of self.new + n ≡ bound_of self.old) (λ _. bound_of self.new ≡ bound_of self.old) }
        ensures cause { HasCause self.old.failed self.new.failed result }

        // Which calls fail, and how many bytes the others give.
        ensures listed { IsOk result ↔ (is_listed self.new.asked self.old.failing.items ≡ false) }
        ensures number { self.new.asked ≡ risen self.old.asked }
        ensures failed { self.new.failed ≡ (if is_listed self.new.asked self.old.failing.items then risen self.old.failed else self.old.failed) }
        ensures failing { self.new.failing ≡ self.old.failing }
        ensures piece { self.new.piece ≡ self.old.piece }
        ensures gives { IfOk result (λ n. n ≡ min self.old.piece (min (bound_of self.old) (length into.old))) }
    {
        self.asked = self.asked.saturating_add(1);
        if self.failing.contains(&self.asked) {
            self.failed = self.failed.saturating_add(1);
            return Err(Failed);
        }
        let (_, rest) = self.bytes.as_slice().split_at(self.given);
        let n = (self.piece as usize).min(rest.len().min(into.len()));
        into[..n].copy_from_slice(&rest[..n]);
        self.given += n;
        Ok(n)
    }
}
