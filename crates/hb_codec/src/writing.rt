// Writes rows, changes and records.
ghost use Rattle.std.specs.Prelude.{◌≡◌, ◌++◌, ◌∷◌, [], ◌≤◌, ℕ, length, map, All, IfOk, OnOk};
ghost use Rattle.hb_types.specs.Lists.{joined};
ghost use Rattle.hb_types.specs.Numbers.{two, four, eight, signed_eight};
ghost use Rattle.hb_types.specs.Records.{place_bytes, lock_bytes, change_bytes, body_bytes, framed, mode_byte, space_bytes, IsChange, HasRecord};
ghost use Rattle.hb_codec.specs.LockReaders.{level_of, path_text};
ghost use Rattle.hb_codec.specs.Spellings.{node_text};
ghost use Rattle.hb_types.specs.Rows.{value_bytes, row_bytes, HasBytes, HaveRow};

use crate::changes::size_of;
use crate::framed::Framed;
use hb_types::{
    Bytes, Change, Held, LogItem, Mode, NoMemory, NodeName, Number, Path, Place, Space, Tx, Value,
};
use std::alloc::Global;

fn put_value(out: &mut Vec<u8>, value: &Value) -> Result<(), NoMemory>
    requires { HasBytes value.now }
    ensures { OnOk result (out.new.items ≡ out.old.items ++ value_bytes value.now) }
{
    match value {
        Value::Int(n) => {
            out.push(1)?;
            out.extend_from_slice(&(*n as i32).to_le_bytes())?;
        }
        Value::Text(text) => {
            let text = text.as_slice();
            out.push(2)?;
            out.push(text.len() as u8)?;
            out.extend_from_slice(text)?;
        }
    }
    Ok(())
}

/// The bytes of a row.
pub fn encode_row(alloc: Global, values: &[Value]) -> Result<Bytes, NoMemory>
    requires { HaveRow values.now }
    ensures { IfOk result (λ bytes. bytes ≡ row_bytes values.now) }
{
    let mut out = Vec::new(alloc);
    out.push(1)?;
    out.push(values.len() as u8)?;
    for value in values {
        put_value(&mut out, value)?;
    }
    Ok(Bytes::new(out))
}

fn put_two(out: &mut Vec<u8>, number: u16) -> Result<(), NoMemory>
    ensures { OnOk result (out.new.items ≡ out.old.items ++ two number) }
{
    out.extend_from_slice(&number.to_le_bytes())?;
    Ok(())
}

fn put_number(out: &mut Vec<u8>, number: u64) -> Result<(), NoMemory>
    ensures { OnOk result (out.new.items ≡ out.old.items ++ eight number) }
{
    out.extend_from_slice(&number.to_le_bytes())?;
    Ok(())
}

fn put_key(out: &mut Vec<u8>, key: i64) -> Result<(), NoMemory>
    ensures { OnOk result (out.new.items ≡ out.old.items ++ signed_eight key) }
{
    out.extend_from_slice(&key.to_le_bytes())?;
    Ok(())
}

fn put_space(out: &mut Vec<u8>, space: Space) -> Result<(), NoMemory>
    ensures { OnOk result (out.new.items ≡ out.old.items ++ space_bytes space) }
{
    out.extend_from_slice(&space.area.to_le_bytes())?;
    out.extend_from_slice(&space.table.to_le_bytes())?;
    Ok(())
}

fn put_place(out: &mut Vec<u8>, place: Place) -> Result<(), NoMemory>
    ensures { OnOk result (out.new.items ≡ out.old.items ++ place_bytes place) }
{
    put_space(out, place.space)?;
    put_two(out, place.group)?;
    put_key(out, place.key)?;
    Ok(())
}

fn put_change(out: &mut Vec<u8>, change: &Change) -> Result<(), NoMemory>
    requires { IsChange change.now }
    ensures { OnOk result (out.new.items ≡ out.old.items ++ change_bytes change.now) }
{
    put_place(out, change.place)?;
    match &change.row {
        None => out.push(0)?,
        Some(row) => {
            let row = row.as_slice();
            out.push(1)?;
            out.extend_from_slice(&(row.len() as u16).to_le_bytes())?;
            out.extend_from_slice(row)?;
        }
    }
    Ok(())
}

/// The bytes of a change.
pub fn encode_change(alloc: Global, change: &Change) -> Result<Bytes, NoMemory>
    requires { IsChange change.now }
    ensures { IfOk result (λ bytes. bytes ≡ change_bytes change.now) }
{
    let mut out = Vec::new(alloc);
    put_change(&mut out, change)?;
    Ok(Bytes::new(out))
}

fn mode_number(mode: Mode) -> u8
    ensures { result ≡ mode_byte mode }
{
    match mode {
        Mode::IS => 0,
        Mode::IX => 1,
        Mode::S => 2,
        Mode::SIX => 3,
        Mode::X => 4,
    }
}

fn level_number(path: Path) -> u8
    ensures { result ≡ level_of path }
{
    match path {
        Path::Whole(_) => 1,
        Path::Group(_, _) => 2,
        Path::Key(_) => 3,
    }
}

fn put_path(out: &mut Vec<u8>, path: Path) -> Result<(), NoMemory>
    ensures { OnOk result (out.new.items ≡ out.old.items ++ path_text path) }
{
    match path {
        Path::Whole(space) => {
            put_space(out, space)?;
            put_two(out, 0)?;
            put_number(out, 0)?;
        }
        Path::Group(space, group) => {
            put_space(out, space)?;
            put_two(out, group)?;
            put_number(out, 0)?;
        }
        Path::Key(place) => put_place(out, place)?,
    }
    Ok(())
}

fn put_lock(out: &mut Vec<u8>, lock: &Held) -> Result<(), NoMemory>
    ensures { OnOk result (out.new.items ≡ out.old.items ++ lock_bytes lock.now) }
{
    out.push(level_number(lock.path))?;
    out.push(mode_number(lock.mode))?;
    put_path(out, lock.path)
}

fn put_locks(out: &mut Vec<u8>, locks: &[Held]) -> Result<(), NoMemory>
    ensures { OnOk result (out.new.items ≡ out.old.items ++ joined (map lock_bytes locks.now)) }
{
    for lock in locks {
        put_lock(out, lock)?;
    }
    Ok(())
}

fn put_changes(out: &mut Vec<u8>, changes: &[Change]) -> Result<(), NoMemory>
    requires { All IsChange changes.now }
    ensures { OnOk result (out.new.items ≡ out.old.items ++ joined (map change_bytes changes.now)) }
{
    for change in changes {
        put_change(out, change)?;
    }
    Ok(())
}

fn put_nodes(out: &mut Vec<u8>, nodes: &[NodeName]) -> Result<(), NoMemory>
    ensures { OnOk result (out.new.items ≡ out.old.items ++ joined (map node_text nodes.now)) }
{
    for node in nodes {
        out.push(node.0)?;
    }
    Ok(())
}

// The length of the changes' bytes.
fn changes_len(changes: &[Change]) -> usize
    requires { length (joined (map change_bytes changes.now)) ≤ 8388608 }
    ensures { result ≡ length (joined (map change_bytes changes.now)) }
{
    let mut len = 0;
    for change in changes {
        len += size_of(change);
    }
    len
}

fn body_len(item: &LogItem) -> usize
    requires { HasRecord item.now }
    ensures { result ≡ length (body_bytes item.now) }
{
    match item {
        LogItem::Prepare { locks, changes, .. } => 25
            + 16 * locks.len()
            + changes_len(changes.as_slice()),
        LogItem::Commit { .. } => 17,
        LogItem::Abort { .. } | LogItem::Ids { .. } => 9,
        LogItem::Decision { nodes, .. } => 18 + nodes.len(),
    }
}

fn put_count(out: &mut Vec<u8>, count: usize) -> Result<(), NoMemory>
    requires { count ≤ 8388608 }
    ensures { OnOk result (out.new.items ≡ out.old.items ++ four count) }
{
    out.extend_from_slice(&(count as u32).to_le_bytes())?;
    Ok(())
}

fn put_head(out: &mut Vec<u8>, tag: u8, first: u64) -> Result<(), NoMemory>
    ensures { OnOk result (out.new.items ≡ out.old.items ++ tag ∷ eight first) }
{
    out.push(tag)?;
    put_number(out, first)
}

fn put_prepare(
    out: &mut Vec<u8>,
    tx: Tx,
    floor: Number,
    locks: &[Held],
    changes: &[Change],
) -> Result<(), NoMemory>
    requires locks { length locks.now ≤ 8388608 }
    requires changes { length changes.now ≤ 8388608 }
    requires fit { All IsChange changes.now }
    ensures { OnOk result (out.new.items ≡ out.old.items ++ (1 ∷ eight tx.0 ++ eight floor.0 ++ four (length locks.now) ++ joined (map lock_bytes locks.now) ++ four (length changes.now) ++ joined (map change_bytes changes.now))) }
{
    put_head(out, 1, tx.0)?;
    put_number(out, floor.0)?;
    put_count(out, locks.len())?;
    put_locks(out, locks)?;
    put_count(out, changes.len())?;
    put_changes(out, changes)?;
    Ok(())
}

fn put_two_numbers(out: &mut Vec<u8>, tag: u8, tx: Tx, number: Number) -> Result<(), NoMemory>
    ensures { OnOk result (out.new.items ≡ out.old.items ++ (tag ∷ eight tx.0 ++ eight number.0)) }
{
    put_head(out, tag, tx.0)?;
    put_number(out, number.0)?;
    Ok(())
}

fn put_decision(
    out: &mut Vec<u8>,
    tx: Tx,
    number: Number,
    nodes: &[NodeName],
) -> Result<(), NoMemory>
    requires { length nodes.now ≤ 9 }
    ensures { OnOk result (out.new.items ≡ out.old.items ++ (4 ∷ eight tx.0 ++ eight number.0 ++ (length nodes.now ∷ joined (map node_text nodes.now)))) }
{
    put_two_numbers(out, 4, tx, number)?;
    out.push(nodes.len() as u8)?;
    put_nodes(out, nodes)?;
    Ok(())
}

fn put_body(out: &mut Vec<u8>, item: &LogItem) -> Result<(), NoMemory>
    requires { HasRecord item.now }
    ensures { OnOk result (out.new.items ≡ out.old.items ++ body_bytes item.now) }
{
    match item {
        LogItem::Prepare {
            tx,
            floor,
            locks,
            changes,
        } => put_prepare(out, *tx, *floor, locks.as_slice(), changes.as_slice())?,
        LogItem::Commit { tx, number } => put_two_numbers(out, 2, *tx, *number)?,
        LogItem::Abort { tx } => put_head(out, 3, tx.0)?,
        LogItem::Decision { tx, number, nodes } => put_decision(
            out,
            *tx,
            *number,
            nodes.as_slice(),
        )?,
        LogItem::Ids { upto } => put_head(out, 5, *upto)?,
    }
    Ok(())
}

/// A record without its gate, followed by the next closed gate.
pub fn encode_record(alloc: Global, item: &LogItem) -> Result<Framed, NoMemory>
    requires { HasRecord item.now }
    ensures { IfOk result (λ bytes. bytes ≡ framed item.now ++ 0 ∷ []) }
{
    let len = body_len(item);
    let mut out = Vec::with_capacity(alloc, len + 5)?;
    put_count(&mut out, len)?;
    put_body(&mut out, item)?;
    out.push(0)?;
    Ok(Framed::new(out))
}
