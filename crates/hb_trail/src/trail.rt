// A trail and its room.
ghost use Rattle.std.specs.Prelude.{◌≡◌, ◌<◌, ◌+◌, ◌-◌, [], ◌∷◌, ◌++◌, OnOk, OnErr};

use hb_types::{NoMemory, TrailEntry};
use std::alloc::Global;
use std::marker::Model;

/// The entries of a node, and how many more it has room for.
#[derive(Drop)]
pub struct Trail {
    list: Vec<TrailEntry>,
    room: usize,
}

impl Model for Trail {
    ghost use Rattle.std.specs.Prelude.{◌≤◌, ◌+◌, vec_len, vec_capacity};
    ghost use Rattle.hb_trail.specs.Trails.{Entries};

    ghost Value = { Entries };

    ghost view = { λ t. record { entries = t.list.items; spare = t.room } };

    ghost invariant = { λ t. vec_len t.list + t.room ≤ vec_capacity t.list };
}

impl Trail {
    pub fn new(alloc: Global) -> Trail
        ensures { result ≡ record { entries = []; spare = 0 } }
    {
        Trail {
            list: Vec::new(alloc),
            room: 0,
        }
    }

    /// Takes the memory for so many further entries.
    pub fn room(&mut self, entries: u32) -> Result<(), NoMemory>
        ensures ok { OnOk result (self.new ≡ record { entries = self.old.entries; spare = self.old.spare + entries }) }
        ensures err { OnErr result (self.new ≡ self.old) }
    {
        let Some(room) = self.room.checked_add(entries as usize) else {
            return Err(NoMemory);
        };
        self.list.reserve(room)?;
        self.room = room;
        Ok(())
    }

    /// Adds an entry in the room that was taken.
    pub fn push(&mut self, entry: TrailEntry)
        requires { 0 < self.old.spare }
        ensures { self.new ≡ record { entries = self.old.entries ++ entry ∷ []; spare = self.old.spare - 1 } }
    {
        let _ = self.list.push(entry);
        self.room -= 1;
    }

    pub fn entries(&self) -> &[TrailEntry]
        ensures { result.now ≡ self.now.entries }
    {
        self.list.as_slice()
    }

    /// How many entries there is room for.
    pub fn spare(&self) -> usize
        ensures { result ≡ self.now.spare }
    {
        self.room
    }
}
