// CREATE RDAREA, once the areas came.
ghost use Rattle.std.specs.Prelude.{◌≡◌, ◌≤◌, ◌<◌, [], ◌∷◌, IfOk, IfSome, length};
ghost use Rattle.hb_model.specs.Define.{create_area_refusals, new_area};
ghost use Rattle.hb_model.specs.Dictionary.{area_row, at_place};
ghost use Rattle.hb_model.specs.Names.{back_end_named as named};
ghost use Rattle.hb_model.specs.Refusals.{first_refusal};
ghost use Rattle.hb_model.specs.Spots.{areas_space};
ghost use Rattle.hb_model.specs.declared.reply.Reply.TheVariants as reply;
ghost use Rattle.hb_talk.specs.PlansDefine.{put_row};
ghost use Rattle.hb_access.specs.Accesses.{use_of};
ghost use Rattle.hb_definerows.specs.DefineRows.{TellAreas, state_told};
ghost use Rattle.hb_plandefine.specs.Defines.{Goes, IsReady, area_beside, area_created, out_of};

use crate::stage::Went;
use crate::steps::write_out;
use hb_access::Usage;
use hb_definerows::{Area, area_change, back_end_named, create_area_refusal, read_areas};
use hb_model::Reply;
use hb_types::{NoMemory, Stored, Text};
use std::alloc::Global;

// Writes the row of an area that is not refused.
fn write_area(
    alloc: Global,
    usage: Usage,
    areas: &[Area],
    name: &Text,
    back_end: u8,
) -> Result<Went, NoMemory>
    requires back_end { (1 ≤ back_end) × (back_end ≤ 8) }
    requires few { length areas.now < 64 }
    requires named { length name.now ≤ 30 }
    ensures goes { let area = new_area (state_told [] areas.now) name.now back_end in IfOk result (Goes (out_of (put_row (at_place areas_space 0 area.number (area_row area)) ∷ []) reply.Created (use_of usage))) }
    ensures ready { IfOk result (IsReady usage) }
{
    let change = area_change(alloc, areas, name, back_end)?;
    let mut changes = Vec::new(alloc);
    changes.push(change)?;
    Ok(write_out(usage, changes, Reply::Created))
}

fn refusal_of(back_ends: u8, areas: &[Area], name: &Text, node: &Text) -> Option<Reply>
    requires { back_ends ≤ 8 }
    ensures { result ≡ first_refusal (create_area_refusals back_ends (state_told [] areas.now) name.now node.now) }
{
    create_area_refusal(back_ends, areas, name.as_slice(), node.as_slice())
}

fn back_end_of(back_ends: u8, node: &Text) -> Option<u8>
    requires { back_ends ≤ 8 }
    ensures named { result ≡ named back_ends node.now }
    ensures within { IfSome result (λ i. (1 ≤ i) × (i ≤ back_ends)) }
{
    back_end_named(back_ends, node.as_slice())
}

// Goes on beside these areas.
fn beside(
    alloc: Global,
    usage: Usage,
    areas: &[Area],
    back_ends: u8,
    name: &Text,
    node: &Text,
) -> Result<Went, NoMemory>
    requires back_ends { back_ends ≤ 8 }
    requires named { length name.now ≤ 30 }
    ensures goes { IfOk result (Goes (area_beside back_ends name.now node.now areas.now (use_of usage))) }
    ensures ready { IfOk result (IsReady usage) }
{
    match refusal_of(back_ends, areas, name, node) {
        Some(reply) => Ok(Went::Refused(reply, usage)),
        None => match back_end_of(back_ends, node) {
            Some(back_end) => write_area(alloc, usage, areas, name, back_end),
            None => Ok(Went::Refused(Reply::NoNode, usage)),
        },
    }
}

/// Goes on with the rows of the areas.
pub(crate) fn area_rows_came(
    alloc: Global,
    usage: Usage,
    back_ends: u8,
    name: Text,
    node: Text,
    rows: &[Stored],
) -> Result<Went, NoMemory>
    requires back_ends { back_ends ≤ 8 }
    requires named { length name ≤ 30 }
    ensures goes { TellAreas rows.now → IfOk result (Goes (area_created back_ends name node rows.now (use_of usage))) }
    ensures ready { IfOk result (IsReady usage) }
{
    let areas = read_areas(alloc, rows)?;
    beside(alloc, usage, areas.as_slice(), back_ends, &name, &node)
}
