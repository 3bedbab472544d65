// A sink in memory.
ghost use Rattle.std.specs.Prelude.{◌≡◌, ◌⊎◌, ◌<◌, ◌≤◌, ◌++◌, ◌∷◌, [], ℕ, List, Some, max, take, length, reverse, IfOk, OnOk, OnErr, true, false, if◌then◌else◌};
ghost use Rattle.hb_edge.specs.Causes.{risen, Rose, HasCause};
ghost use Rattle.hb_edge.specs.Moments.{tick};
ghost use Rattle.hb_edge.specs.Streams.{with_end, PutsPart};
ghost use Rattle.hb_memdisk.specs.Listed.{is_listed};
ghost use Rattle.hb_memdisk.specs.Pieces.{reached};

use hb_edge::{Clock, Failed, Sink};
use hb_types::NoMemory;
use std::alloc::Global;

/// The moment of a piece, and where it ends among all that was put.
#[derive(Clone, Copy, Debug)]
pub struct Piece {
    pub at: u128,
    pub end: usize,
}

/// Keeps all that is put, with the moments. Which of its calls fail is given with it; such a call puts nothing.
#[derive(Drop)]
pub struct MemSink {
    bytes: Vec<u8>,
    pieces: Vec<Piece>,
    last: u128,
    failing: Vec<u64>,
    asked: u64,
    failed: u64,
    short: u64,
    ghost within: { (m : ℕ) → reached (reverse pieces.items) m ≤ length bytes.items },
    ghost whole: { (m : ℕ) → last ≤ m → reached (reverse pieces.items) m ≡ length bytes.items },
}

impl MemSink {
    ghost use Rattle.hb_memdisk.specs.MemSink.{shown_of};

    /// The calls whose numbers, from 1, are listed fail.
    pub fn new(alloc: Global, failing: Vec<u64>) -> Result<MemSink, NoMemory>
        ensures bytes { IfOk result (λ sink. sink.bytes.items ≡ []) }
        ensures shown { IfOk result (λ sink. (m : ℕ) → shown_of sink m ≡ Some []) }
        ensures last { IfOk result (λ sink. sink.last ≡ 0) }
        ensures failing { IfOk result (λ sink. sink.failing ≡ failing) }
        ensures asked { IfOk result (λ sink. sink.asked ≡ 0) }
        ensures failed { IfOk result (λ sink. sink.failed ≡ 0) }
        ensures short { IfOk result (λ sink. sink.short ≡ 0) }
    {
        Ok(MemSink {
            bytes: Vec::new(alloc),
            pieces: Vec::new(alloc),
            last: 0,
            failing,
            asked: 0,
            failed: 0,
            short: 0,
        })
    }

    pub fn bytes(&self) -> &[u8]
        ensures { result.now ≡ self.now.bytes.items }
    {
        &self.bytes
    }

    /// How many calls found no memory for the piece or its note.
    pub fn short(&self) -> u64
        ensures { result ≡ self.now.short }
    {
        self.short
    }
}

// Puts a piece, or where there is no memory nothing of it.
fn keep(
    bytes: &mut Vec<u8>,
    pieces: &mut Vec<Piece>,
    at: u128,
    piece: &[u8],
) -> Result<(), NoMemory>
    ensures bytes { OnOk result (bytes.new.items ≡ bytes.old.items ++ piece.now) }
    ensures pieces { OnOk result (reverse pieces.new.items ≡ record { at = at; end = length bytes.new.items } ∷ reverse pieces.old.items) }
    ensures same { OnErr result ((bytes.new.items ≡ bytes.old.items) × (pieces.new.items ≡ pieces.old.items)) }
{
    let kept = bytes.len();
    bytes.extend_from_slice(piece)?;
    let end = bytes.len();
    if pieces.push(Piece { at, end }).is_err() {
        bytes.truncate(kept);
        return Err(NoMemory);
    }
    Ok(())
}

impl Sink for MemSink {
    ghost use Rattle.hb_memdisk.specs.MemSink.{told_of, shown_of, faults_of, sink_stands};

    ghost held = { told_of };

    ghost shown = { shown_of };

    ghost last = { λ sink. sink.last };

    ghost faults = { faults_of };

    ghost stands = { sink_stands };

    fn put(&mut self, clock: &mut Clock, bytes: &[u8]) -> Result<(), Failed>
        ensures all { OnOk result (told_of self.new ≡ with_end bytes.now (told_of self.old)) }
        ensures part { OnErr result (PutsPart (told_of self.old) (told_of self.new) bytes.now) }
        ensures before { (m : ℕ) → m < clock.new → shown_of self.new m ≡ shown_of self.old m }
        ensures clock { clock.new ≡ tick clock.old }
        ensures last { self.new.last ≡ max self.old.last clock.new }
        ensures cause { HasCause (faults_of self.old) (faults_of self.new) result }

        // Which calls fail, and that they put nothing.
        ensures answered { OnOk result ((is_listed self.new.asked self.old.failing.items ≡ false) × (self.new.short ≡ self.old.short)) }
        ensures refused { OnErr result (((is_listed self.new.asked self.old.failing.items ≡ true) ⊎ Rose self.old.short self.new.short) × (self.new.bytes.items ≡ self.old.bytes.items)) }
        ensures number { self.new.asked ≡ risen self.old.asked }
        ensures failed { self.new.failed ≡ (if is_listed self.new.asked self.old.failing.items then risen self.old.failed else self.old.failed) }
        ensures failing { self.new.failing ≡ self.old.failing }
    {
        clock.tick();
        self.last = self.last.max(clock.moment());
        self.asked = self.asked.saturating_add(1);
        if self.failing.contains(&self.asked) {
            self.failed = self.failed.saturating_add(1);
            return Err(Failed);
        }
        if keep(&mut self.bytes, &mut self.pieces, self.last, bytes).is_err() {
            self.short = self.short.saturating_add(1);
            return Err(Failed);
        }
        Ok(())
    }
}
