// What the calls of a disk in memory change. Each is noted with its moment, or nothing is done.
ghost use Rattle.std.specs.Prelude.{◌≡◌, ◌≤◌, ◌∷◌, take, IfOk, OnOk, OnErr, reverse, unwrap_or};
ghost use Rattle.hb_edge.specs.Images.{written};
ghost use Rattle.hb_memdisk.specs.MemDisk.{calls_of, content_of, next_pick, picked, SameCounts};
ghost use Rattle.hb_memdisk.specs.declared.call.Call.TheVariants.{Write, Shorten, Settle, Restart};

use crate::call::{Call, Noted, note};
use crate::memdisk::MemDisk;
use crate::replay::{fill, patch};
use hb_types::{Bytes, NoMemory};
use std::alloc::Global;

// What a read gives, taken out of the disk to be changed.
fn taken(alloc: Global, changed: &mut Option<Bytes>, first: &Bytes) -> Result<Vec<u8>, NoMemory>
    ensures image { IfOk result (λ image. image.items ≡ unwrap_or changed.old first.now) }
    ensures err { OnErr result (changed.new ≡ changed.old) }
{
    match changed.take() {
        Some(image) => Ok(image.into_vec()),
        None => Ok(Vec::from_slice(alloc, first.as_slice())?),
    }
}

fn write_noted(
    calls: &mut Vec<Noted>,
    image: &mut Vec<u8>,
    moment: u128,
    at: u64,
    bytes: &[u8],
    kept: Bytes,
) -> Result<(), NoMemory>
    requires { kept ≡ bytes.now }
    ensures calls { OnOk result (reverse calls.new.items ≡ record { at = moment; call = Write at bytes.now } ∷ reverse calls.old.items) }
    ensures image { OnOk result (image.new.items ≡ written at bytes.now image.old.items) }
    ensures same { OnErr result ((calls.new.items ≡ calls.old.items) × (image.new.items ≡ image.old.items)) }
{
    let noted_before = calls.len();
    note(calls, moment, Call::Write(at, kept))?;
    if patch(image, 0, at, bytes).is_err() {
        calls.truncate(noted_before);
        return Err(NoMemory);
    }
    Ok(())
}

impl MemDisk {
    pub(super) fn write(&mut self, moment: u128, at: u64, bytes: &[u8]) -> Result<(), NoMemory>
        requires { moment ≤ self.old.last }
        ensures counts { SameCounts self.old self.new }
        ensures calls { OnOk result (calls_of self.new ≡ record { at = moment; call = Write at bytes.now } ∷ calls_of self.old) }
        ensures written { OnOk result (content_of self.new ≡ written at bytes.now (content_of self.old)) }
        ensures same { OnErr result (calls_of self.new ≡ calls_of self.old) }
    {
        let kept = Bytes::new(Vec::from_slice(self.alloc, bytes)?);
        let mut image = taken(self.alloc, &mut self.changed, &self.first)?;
        let noted = write_noted(&mut self.calls, &mut image, moment, at, bytes, kept);
        self.changed = Some(Bytes::new(image));
        noted
    }

    pub(super) fn shorten(&mut self, moment: u128, length: u64) -> Result<(), NoMemory>
        requires { moment ≤ self.old.last }
        ensures counts { SameCounts self.old self.new }
        ensures calls { OnOk result (calls_of self.new ≡ record { at = moment; call = Shorten length } ∷ calls_of self.old) }
        ensures cut { OnOk result (content_of self.new ≡ take length (content_of self.old)) }
        ensures same { OnErr result (calls_of self.new ≡ calls_of self.old) }
    {
        let mut image = taken(self.alloc, &mut self.changed, &self.first)?;
        let noted = note(&mut self.calls, moment, Call::Shorten(length));
        if noted.is_ok() {
            image.truncate(length as usize);
        }
        self.changed = Some(Bytes::new(image));
        noted
    }

    pub(super) fn settle(&mut self, moment: u128) -> Result<(), NoMemory>
        requires { moment ≤ self.old.last }
        ensures counts { SameCounts self.old self.new }
        ensures calls { OnOk result (calls_of self.new ≡ record { at = moment; call = Settle } ∷ calls_of self.old) }
        ensures content { content_of self.new ≡ content_of self.old }
        ensures same { OnErr result (calls_of self.new ≡ calls_of self.old) }
    {
        let image = Bytes::new(Vec::from_slice(self.alloc, self.bytes())?);
        note(&mut self.calls, moment, Call::Settle)?;
        self.synced = Some(image);
        Ok(())
    }

    pub(super) fn leave_picked(&mut self, moment: u128) -> Result<(), NoMemory>
        requires { moment ≤ self.old.last }
        ensures counts { SameCounts self.old self.new }
        ensures calls { OnOk result (calls_of self.new ≡ record { at = moment; call = Restart (picked (next_pick self.old) self.old) } ∷ calls_of self.old) }
        ensures picked { OnOk result (content_of self.new ≡ picked (next_pick self.old) self.old) }
        ensures same { OnErr result (calls_of self.new ≡ calls_of self.old) }
        ensures content { OnErr result (content_of self.new ≡ content_of self.old) }
    {
        let image = self.picked()?;
        let changed = image.copy(self.alloc)?;
        let synced = image.copy(self.alloc)?;
        note(&mut self.calls, moment, Call::Restart(image))?;
        self.changed = Some(changed);
        self.synced = Some(synced);
        Ok(())
    }

    // The image that the next restart leaves.
    fn picked(&self) -> Result<Bytes, NoMemory>
        ensures { IfOk result (λ image. image ≡ picked (next_pick self.now) self.now) }
    {
        match self.picks.get(self.restarts as usize) {
            Some(1) => Ok(Bytes::new(Vec::from_slice(self.alloc, self.bytes())?)),
            Some(pick) if 2 <= *pick && *pick < 258 => fill(
                self.alloc,
                self.first.as_slice(),
                &self.calls,
                (*pick - 2) as u8,
            ),
            _ => match &self.synced {
                Some(bytes) => bytes.copy(self.alloc),
                None => self.first.copy(self.alloc),
            },
        }
    }
}
