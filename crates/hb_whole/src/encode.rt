// Images and headers as bytes.
ghost use Rattle.std.specs.Prelude.{◌≡◌, ℕ, ◌+◌, ◌≤◌, ◌<◌, ◌^◌, [], ◌∷◌, ◌++◌, List, length, map as mapped, replicate, MatchOption, IfOk, OnOk, IfSome};
ghost use Rattle.hb_types.specs.Lists.{joined};
ghost use Rattle.hb_types.specs.Numbers.{two, four, eight, signed_eight};
ghost use Rattle.hb_types.specs.Records.{change_bytes, place_bytes, space_bytes};
ghost use Rattle.hb_types.specs.Rows.{IsRow};
ghost use Rattle.hb_disks.specs.WholeImage.{as_change, image_bytes};
ghost use Rattle.hb_whole.specs.Points.{AreRows};
ghost use Rattle.hb_whole.specs.Slots.{rows_of, AreSound, IsSlot};

use crate::map::{Map, Slot};
use hb_store::Point;
use hb_types::{NoMemory, Place, Space};
use std::alloc::Global;

fn put_two(out: &mut Vec<u8>, number: u16) -> Result<(), NoMemory>
    ensures { OnOk result (out.new.items ≡ out.old.items ++ two number) }
{
    out.extend_from_slice(&number.to_le_bytes())?;
    Ok(())
}

fn put_number(out: &mut Vec<u8>, number: u64) -> Result<(), NoMemory>
    ensures { OnOk result (out.new.items ≡ out.old.items ++ eight number) }
{
    out.extend_from_slice(&number.to_le_bytes())?;
    Ok(())
}

fn put_key(out: &mut Vec<u8>, key: i64) -> Result<(), NoMemory>
    ensures { OnOk result (out.new.items ≡ out.old.items ++ signed_eight key) }
{
    out.extend_from_slice(&key.to_le_bytes())?;
    Ok(())
}

fn put_space(out: &mut Vec<u8>, space: Space) -> Result<(), NoMemory>
    ensures { OnOk result (out.new.items ≡ out.old.items ++ space_bytes space) }
{
    out.extend_from_slice(&space.area.to_le_bytes())?;
    out.extend_from_slice(&space.table.to_le_bytes())?;
    Ok(())
}

fn put_place(out: &mut Vec<u8>, place: Place) -> Result<(), NoMemory>
    ensures { OnOk result (out.new.items ≡ out.old.items ++ place_bytes place) }
{
    put_space(out, place.space)?;
    put_two(out, place.group)?;
    put_key(out, place.key)?;
    Ok(())
}

// A row with its place, as the change that puts it.
fn put_row(out: &mut Vec<u8>, place: Place, row: &[u8]) -> Result<(), NoMemory>
    requires { length row.now ≤ 4000 }
    ensures { OnOk result (out.new.items ≡ out.old.items ++ change_bytes (as_change (record { place = place; row = row.now }))) }
{
    put_place(out, place)?;
    out.push(1)?;
    put_two(out, row.len() as u16)?;
    out.extend_from_slice(row)?;
    Ok(())
}

fn put_slot(out: &mut Vec<u8>, place: Place, slot: &Slot) -> Result<(), NoMemory>
    requires { IfSome slot.now.row (λ row. length row ≤ 4000) }
    ensures { OnOk result (out.new.items ≡ out.old.items ++ joined (mapped (λ r. change_bytes (as_change r)) (rows_of ((place, slot.now) ∷ [])))) }
{
    if let Some(row) = &slot.row {
        put_row(out, place, row.as_slice())?;
    }
    Ok(())
}

/// How many rows there are, if a count of four bytes holds that.
pub(crate) fn count(map: &Map) -> Option<u32>
    ensures { MatchOption result (2 ^ 32 ≤ length (rows_of map.now.entries)) (λ n. n ≡ length (rows_of map.now.entries)) }
{
    let mut count: u32 = 0;
    for (_, slot) in map.iter() {
        if slot.row.is_some() {
            count = count.checked_add(1)?;
        }
    }
    Some(count)
}

/// The image of all rows.
pub(crate) fn image(alloc: Global, map: &Map, count: u32) -> Result<Vec<u8>, NoMemory>
    requires sound { AreSound map.now.entries }
    requires count { count ≡ length (rows_of map.now.entries) }
    ensures image { IfOk result (λ bytes. bytes.items ≡ image_bytes (rows_of map.now.entries)) }
    ensures sound { OnOk result (AreRows (rows_of map.now.entries)) }
{
    let mut out = Vec::from_slice(alloc, &count.to_le_bytes())?;
    for (place, slot) in map.iter() {
        put_slot(&mut out, *place, slot)?;
    }
    Ok(out)
}

/// The bytes of a header behind its gate.
pub(crate) fn header(
    alloc: Global,
    sequence: u64,
    point: Point,
    place: u64,
    length: u64,
) -> Result<Vec<u8>, NoMemory>
    ensures { IfOk result (λ bytes. bytes.items ≡ eight sequence ++ eight point.from ++ eight point.floor.0 ++ eight place ++ eight length ++ replicate 23 0) }
{
    let mut out = Vec::new(alloc);
    put_number(&mut out, sequence)?;
    put_number(&mut out, point.from)?;
    put_number(&mut out, point.floor.0)?;
    put_number(&mut out, place)?;
    put_number(&mut out, length)?;
    out.extend_from_slice(&[0; 23])?;
    Ok(out)
}
