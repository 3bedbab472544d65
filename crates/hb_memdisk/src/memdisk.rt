// A disk in memory, which keeps a list of its calls, so that what a stop at each moment may leave is known.
ghost use Rattle.std.specs.Prelude.{◌≡◌, ◌≤◌, ℕ, List, [], max, if◌then◌else◌, reverse, unwrap_or};
ghost use Rattle.hb_edge.specs.Causes.{risen};
ghost use Rattle.hb_memdisk.specs.Calls.{reads, settled, newest};

use crate::call::Noted;
use hb_types::Bytes;
use std::alloc::Global;

mod changes;
mod device;

/// A disk in memory: which of its calls fail, and what each restart leaves, is given with it.
#[derive(Drop)]
pub struct MemDisk {
    alloc: Global,
    /// What it held first.
    first: Bytes,
    calls: Vec<Noted>,
    /// What a read gives, where it isn't what it held first.
    changed: Option<Bytes>,
    /// What the last sync or restart left, where it isn't what it held first.
    synced: Option<Bytes>,
    last: u128,
    asked: u64,
    restarts: u64,
    failing: Vec<u64>,
    picks: Vec<u16>,
    failed: u64,
    short: u64,
    ghost as_read: { unwrap_or changed first ≡ reads first (reverse calls.items) },
    ghost as_synced: { unwrap_or synced first ≡ settled first (reverse calls.items) },
    ghost in_time: { newest (reverse calls.items) ≤ last },
}

impl MemDisk {
    ghost use Rattle.hb_memdisk.specs.Listed.{is_listed};
    ghost use Rattle.hb_memdisk.specs.MemDisk.{content_of, left_of};

    /// The calls whose numbers, from 1, are listed fail. The k-th restart that succeeds leaves what the k-th pick says, or
    /// the pick 0 when they are spent: 0 what the last sync left, 1 all writes made, 2 + v all pending bytes filled with v
    /// at the greatest length.
    pub fn new(alloc: Global, bytes: Bytes, failing: Vec<u64>, picks: Vec<u16>) -> MemDisk
        ensures content { content_of result ≡ bytes }
        ensures settled { (m : ℕ) (image : List ℕ) → left_of result m image → image ≡ bytes }
        ensures first { result.first ≡ bytes }
        ensures calls { result.calls.items ≡ [] }
        ensures last { result.last ≡ 0 }
        ensures asked { result.asked ≡ 0 }
        ensures restarts { result.restarts ≡ 0 }
        ensures failing { result.failing ≡ failing }
        ensures picks { result.picks ≡ picks }
        ensures failed { result.failed ≡ 0 }
        ensures short { result.short ≡ 0 }
    {
        MemDisk {
            alloc,
            first: bytes,
            calls: Vec::new(alloc),
            changed: None,
            synced: None,
            last: 0,
            asked: 0,
            restarts: 0,
            failing,
            picks,
            failed: 0,
            short: 0,
        }
    }

    pub fn bytes(&self) -> &[u8]
        ensures { result.now ≡ content_of self.now }
    {
        match &self.changed {
            Some(bytes) => bytes.as_slice(),
            None => self.first.as_slice(),
        }
    }

    /// How many calls found no memory for their own notes.
    pub fn short(&self) -> u64
        ensures { result ≡ self.now.short }
    {
        self.short
    }

    // The call at this moment begins: whether it is listed to fail.
    fn begin(&mut self, moment: u128) -> bool
        ensures listed { result ≡ is_listed self.new.asked self.old.failing.items }
        ensures asked { self.new.asked ≡ risen self.old.asked }
        ensures failed { self.new.failed ≡ (if result then risen self.old.failed else self.old.failed) }
        ensures last { self.new.last ≡ max self.old.last moment }
        ensures first { self.new.first ≡ self.old.first }
        ensures calls { self.new.calls ≡ self.old.calls }
        ensures changed { self.new.changed ≡ self.old.changed }
        ensures synced { self.new.synced ≡ self.old.synced }
        ensures restarts { self.new.restarts ≡ self.old.restarts }
        ensures failing { self.new.failing ≡ self.old.failing }
        ensures picks { self.new.picks ≡ self.old.picks }
        ensures short { self.new.short ≡ self.old.short }
    {
        self.last = self.last.max(moment);
        self.asked = self.asked.saturating_add(1);
        let listed = self.failing.contains(&self.asked);
        if listed {
            self.failed = self.failed.saturating_add(1);
        }
        listed
    }
}
