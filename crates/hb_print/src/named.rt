// Replies that tell of transactions by their owners, or of a table.
ghost use Rattle.std.specs.Prelude.{◌≡◌, ◌++◌, OnOk, codes};
ghost use Rattle.std.specs.Fmt.{decimal};
ghost use Rattle.hb_print.specs.Places.{owner_text, edges_text};
ghost use Rattle.hb_print.specs.Replies.{named_line};

use crate::edges::put_edges;
use crate::owners::put_owner;
use crate::put::{put, put_number};
use hb_model::Reply;
use hb_types::{Edge, NoMemory, Number, Owner, Text};
use std::alloc::Global;

#[tactic(auto, using(crate::proofs::Pieces::pieces))]
fn put_unknown(
    alloc: Global,
    out: &mut Vec<u8>,
    names: &[Text],
    owner: Owner,
) -> Result<(), NoMemory>
    ensures { OnOk result (out.new.items ≡ out.old.items ++ (codes "OUTCOME UNKNOWN " ++ owner_text names.now owner)) }
{
    put(out, b"OUTCOME UNKNOWN ")?;
    put_owner(alloc, out, names, owner)?;
    Ok(())
}

#[tactic(auto, using(crate::proofs::Pieces::pieces))]
fn put_committed(
    alloc: Global,
    out: &mut Vec<u8>,
    names: &[Text],
    owner: Owner,
    number: Number,
) -> Result<(), NoMemory>
    ensures { OnOk result (out.new.items ≡ out.old.items ++ (owner_text names.now owner ++ (codes " COMMITTED " ++ decimal number.0))) }
{
    put_owner(alloc, out, names, owner)?;
    put(out, b" COMMITTED ")?;
    put_number(alloc, out, number.0)?;
    Ok(())
}

#[tactic(auto, using(crate::proofs::Pieces::pieces))]
fn put_rolled_back(
    alloc: Global,
    out: &mut Vec<u8>,
    names: &[Text],
    owner: Owner,
) -> Result<(), NoMemory>
    ensures { OnOk result (out.new.items ≡ out.old.items ++ (owner_text names.now owner ++ codes " ROLLED BACK")) }
{
    put_owner(alloc, out, names, owner)?;
    put(out, b" ROLLED BACK")?;
    Ok(())
}

#[tactic(auto, using(crate::proofs::Pieces::pieces))]
fn put_waits(
    alloc: Global,
    out: &mut Vec<u8>,
    names: &[Text],
    edges: &[Edge],
) -> Result<(), NoMemory>
    ensures { OnOk result (out.new.items ≡ out.old.items ++ (codes "WAITS " ++ edges_text names.now edges.now)) }
{
    put(out, b"WAITS ")?;
    put_edges(alloc, out, names, edges)?;
    Ok(())
}

#[tactic(auto, using(crate::proofs::Pieces::pieces))]
fn put_deadlock(
    alloc: Global,
    out: &mut Vec<u8>,
    names: &[Text],
    edges: &[Edge],
) -> Result<(), NoMemory>
    ensures { OnOk result (out.new.items ≡ out.old.items ++ (codes "DEADLOCK " ++ edges_text names.now edges.now)) }
{
    put(out, b"DEADLOCK ")?;
    put_edges(alloc, out, names, edges)?;
    Ok(())
}

#[tactic(auto, using(crate::proofs::Pieces::pieces))]
fn put_table(
    alloc: Global,
    out: &mut Vec<u8>,
    table: &Text,
    rows: u64,
    moving: u16,
) -> Result<(), NoMemory>
    ensures { OnOk result (out.new.items ≡ out.old.items ++ (codes "TABLE " ++ (table.now ++ (codes " ROWS " ++ (decimal rows ++ (codes " MOVING " ++ decimal moving)))))) }
{
    put(out, b"TABLE ")?;
    put(out, table.as_slice())?;
    put(out, b" ROWS ")?;
    put_number(alloc, out, rows)?;
    put(out, b" MOVING ")?;
    put_number(alloc, out, moving as u64)?;
    Ok(())
}

#[tactic(auto, unfolding(crate::specs::Replies::named_line), using(crate::proofs::Pieces::pieces))]
pub(crate) fn put_named_line(
    alloc: Global,
    out: &mut Vec<u8>,
    names: &[Text],
    reply: &Reply,
) -> Result<(), NoMemory>
    ensures { OnOk result (out.new.items ≡ out.old.items ++ named_line names.now reply.now) }
{
    match reply {
        Reply::OutcomeUnknown(owner) => {
            put_unknown(alloc, out, names, *owner)?;
            Ok(())
        }
        Reply::ToldCommitted(owner, number) => {
            put_committed(alloc, out, names, *owner, *number)?;
            Ok(())
        }
        Reply::ToldRolledBack(owner) => {
            put_rolled_back(alloc, out, names, *owner)?;
            Ok(())
        }
        Reply::Waits(edges) => {
            put_waits(alloc, out, names, edges.as_slice())?;
            Ok(())
        }
        Reply::Deadlock(edges) => {
            put_deadlock(alloc, out, names, edges.as_slice())?;
            Ok(())
        }
        Reply::TableLine {
            table,
            rows,
            moving,
        } => {
            put_table(alloc, out, table, *rows, *moving)?;
            Ok(())
        }
        _ => Ok(()),
    }
}
