// CREATE RDAREA: why it is refused, and the row of the new area.
ghost use Rattle.std.specs.Prelude.{◌≡◌, ◌≤◌, ◌<◌, ◌/◌, ◌==◌, [], length, count_by, IfOk, is_none, is_some};
ghost use Rattle.hb_model.specs.Define.{new_area, create_area_refusals};
ghost use Rattle.hb_model.specs.Dictionary.{area_row as area_values, at_place};
ghost use Rattle.hb_model.specs.Names.{back_end_named as named};
ghost use Rattle.hb_model.specs.Refusals.{first_refusal};
ghost use Rattle.hb_model.specs.Spots.{areas_space};
ghost use Rattle.hb_model.specs.State.{area_named};
ghost use Rattle.hb_talk.specs.PlansDefine.{put_row as change_of};
ghost use Rattle.hb_definerows.specs.DefineRows.{IsDefined, state_told};

use crate::areas::{Area, find_area};
use crate::back_ends::back_end_named;
use crate::putting::put_row;
use hb_dict::area_row;
use hb_model::Reply;
use hb_types::{Change, NoMemory, Text};
use std::alloc::Global;

/// The most areas of a system.
pub const MOST_AREAS: usize = 64;

fn is_no_node(back_ends: u8, node: &[u8]) -> bool
    requires { back_ends ≤ 8 }
    ensures { result ≡ is_none (named back_ends node.now) }
{
    back_end_named(back_ends, node).is_none()
}

fn is_there(areas: &[Area], name: &[u8]) -> bool
    ensures { result ≡ is_some (area_named (state_told [] areas.now) name.now) }
{
    find_area(areas, name).is_some()
}

/// Why an area of this name is not created at a node.
pub fn create_area_refusal(back_ends: u8, areas: &[Area], name: &[u8], node: &[u8]) -> Option<Reply>
    requires { back_ends ≤ 8 }
    ensures { result ≡ first_refusal (create_area_refusals back_ends (state_told [] areas.now) name.now node.now) }
{
    if is_no_node(back_ends, node) {
        Some(Reply::NoNode)
    } else if is_there(areas, name) {
        Some(Reply::AreaThere)
    } else if MOST_AREAS <= areas.len() {
        Some(Reply::TooMany)
    } else {
        None
    }
}

fn count_of(areas: &[Area], back_end: u8) -> usize
    ensures count { result ≡ count_by (λ a. a.number / 256 == back_end) areas.now }
    ensures within { result ≤ length areas.now }
{
    areas
        .iter()
        .filter(|area| area.number() / 256 == u16::from(back_end))
        .count()
}

/// The change that puts the row of a new area of a back end.
pub fn area_change(
    alloc: Global,
    areas: &[Area],
    name: &Text,
    back_end: u8,
) -> Result<Change, NoMemory>
    requires back_end { (1 ≤ back_end) × (back_end ≤ 8) }
    requires few { length areas.now < 64 }
    requires named { length name.now ≤ 30 }
    ensures change { let area = new_area (state_told [] areas.now) name.now back_end in IfOk result (λ c. c ≡ change_of (at_place areas_space 0 area.number (area_values area))) }
    ensures sound { IfOk result IsDefined }
{
    let number = 256 * u16::from(back_end) + count_of(areas, back_end) as u16 + 1;
    let row = area_row(alloc, name, back_end)?;
    Ok(put_row(1, 0, number, row))
}
