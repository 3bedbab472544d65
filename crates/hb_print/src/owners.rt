// How owners are written.
ghost use Rattle.std.specs.Prelude.{◌≡◌, ◌++◌, OnOk, get_or, []};
ghost use Rattle.hb_print.specs.Places.{owner_text};

use crate::put::{put, put_number};
use hb_types::{NoMemory, Owner, Text};
use std::alloc::Global;

pub(crate) fn put_name(out: &mut Vec<u8>, names: &[Text], at: u64) -> Result<(), NoMemory>
    ensures { OnOk result (out.new.items ≡ out.old.items ++ get_or names.now at []) }
{
    if at < names.len() as u64 {
        put(out, names[at as usize].as_slice())?;
    }
    Ok(())
}

#[tactic(auto, unfolding(crate::specs::Places::owner_text), using(crate::proofs::Pieces::pieces))]
pub(crate) fn put_owner(
    alloc: Global,
    out: &mut Vec<u8>,
    names: &[Text],
    owner: Owner,
) -> Result<(), NoMemory>
    ensures { OnOk result (out.new.items ≡ out.old.items ++ owner_text names.now owner) }
{
    put_name(out, names, owner.session as u64)?;
    put(out, b"/")?;
    put_number(alloc, out, owner.nth)?;
    Ok(())
}
