// Images made in place, and made anew from the calls.
ghost use Rattle.std.specs.Prelude.{◌≡◌, ◌+◌, ◌-◌, ◌≤◌, ◌^◌, ◌++◌, drop, replicate, length, reverse, take, IfOk, OnOk, OnErr};
ghost use Rattle.hb_edge.specs.Images.{patched, window};
ghost use Rattle.hb_memdisk.specs.Calls.{after, reads, filled, filled_by};

use crate::call::{Call, Noted};
use hb_types::{Bytes, NoMemory};
use std::alloc::Global;

// Makes the image at least this long.
fn lengthen(image: &mut Vec<u8>, gap: u8, end: usize) -> Result<(), NoMemory>
    ensures ok { OnOk result (image.new.items ≡ image.old.items ++ replicate (end - length image.old.items) gap) }
    ensures long { OnOk result (end ≤ length image.new.items) }
    ensures err { OnErr result (image.new.items ≡ image.old.items) }
{
    if image.len() < end {
        image.resize(end, gap)?;
    }
    Ok(())
}

fn overwrite(image: &mut [u8], at: usize, bytes: &[u8])
    requires { at + length bytes.now ≤ length image.old }
    ensures { image.new ≡ take at image.old ++ bytes.now ++ drop (at + length bytes.now) image.old }
{
    let (_, rest) = image.split_at_mut(at);
    let (part, _) = rest.split_at_mut(bytes.len());
    part.copy_from_slice(bytes);
}

/// Puts bytes at a place, and a byte into each place of a gap before it.
pub fn patch(image: &mut Vec<u8>, gap: u8, at: u64, bytes: &[u8]) -> Result<(), NoMemory>
    ensures ok { OnOk result (image.new.items ≡ patched gap at bytes.now image.old.items) }
    ensures err { OnErr result (image.new.items ≡ image.old.items) }
{
    let at = at as usize;
    let Some(end) = at.checked_add(bytes.len()) else {
        return Err(NoMemory);
    };
    lengthen(image, gap, end)?;
    overwrite(image.as_mut_slice(), at, bytes);
    Ok(())
}

/// The bytes of a window: past the end they are 0.
pub fn copy_window(image: &[u8], at: u64, into: &mut [u8])
    ensures { into.new ≡ window image.now at (length into.old) }
{
    into.fill(0);
    let at = at as usize;
    if at < image.len() {
        let rest = &image[at..];
        let n = rest.len().min(into.len());
        into[..n].copy_from_slice(&rest[..n]);
    }
}

/// What a read gives after a call.
fn redo(image: &mut Vec<u8>, call: &Call) -> Result<(), NoMemory>
    ensures { OnOk result (image.new.items ≡ after call.now image.old.items) }
{
    match call {
        Call::Write(at, bytes) => patch(image, 0, *at, bytes.as_slice()),
        Call::Shorten(length) => {
            image.truncate(*length as usize);
            Ok(())
        }
        Call::Settle => Ok(()),
        Call::Restart(left) => become_these(image, left.as_slice()),
    }
}

fn become_these(image: &mut Vec<u8>, bytes: &[u8]) -> Result<(), NoMemory>
    ensures { OnOk result (image.new.items ≡ bytes.now) }
{
    image.clear();
    image.extend_from_slice(bytes)?;
    Ok(())
}

// What a call leaves where all that it leaves pending is filled.
fn fill_call(
    alloc: Global,
    image: &mut Vec<u8>,
    read: &[u8],
    call: &Call,
    v: u8,
) -> Result<(), NoMemory>
    ensures { OnOk result (image.new.items ≡ filled_by v call.now read.now image.old.items) }
{
    match call {
        Call::Write(at, bytes) => {
            let mut filling = Vec::new(alloc);
            filling.resize(bytes.as_slice().len(), v)?;
            patch(image, v, *at, &filling)
        }
        Call::Shorten(_) => Ok(()),
        Call::Settle => become_these(image, read),
        Call::Restart(left) => become_these(image, left.as_slice()),
    }
}

/// What the calls leave where all bytes that are pending are filled with one value, at the greatest length.
pub fn fill(alloc: Global, first: &[u8], calls: &[Noted], v: u8) -> Result<Bytes, NoMemory>
    ensures { IfOk result (λ image. image ≡ filled v first.now (reverse calls.now)) }
{
    let mut read = Vec::from_slice(alloc, first)?;
    let mut image = Vec::from_slice(alloc, first)?;
    for noted in calls {
        fill_call(alloc, &mut image, &read, &noted.call, v)?;
        redo(&mut read, &noted.call)?;
    }
    Ok(Bytes::new(image))
}
