// The calls that a disk in memory keeps.
ghost use Rattle.std.specs.Prelude.{◌≡◌, ◌∷◌, ◌++◌, [], OnOk, OnErr, reverse};

use hb_types::{Bytes, NoMemory};

/// A call that changed the disk, or what a stop may leave of it.
#[derive(Debug, Drop)]
pub enum Call {
    Write(u64, Bytes),
    Shorten(u64),
    Settle,
    Restart(Bytes),
}

/// A call with its moment.
#[derive(Debug, Drop)]
pub struct Noted {
    pub at: u128,
    pub call: Call,
}

pub fn note(calls: &mut Vec<Noted>, at: u128, call: Call) -> Result<(), NoMemory>
    ensures ok { OnOk result (reverse calls.new.items ≡ record { at = at; call = call } ∷ reverse calls.old.items) }
    ensures items { OnOk result (calls.new.items ≡ calls.old.items ++ record { at = at; call = call } ∷ []) }
    ensures err { OnErr result (calls.new.items ≡ calls.old.items) }
{
    calls.push(Noted { at, call })?;
    Ok(())
}
