// The areas that rows of the dictionary tell.
ghost use Rattle.std.specs.Prelude.{◌≡◌, ℕ, ◌<◌, ◌≤◌, pos, Some, find, filter_map, option_map, IfOk, IfSome, MatchOption};
ghost use Rattle.std.specs.Str.{bytes_eq};
ghost use Rattle.hb_talk.specs.PlansDefine.{area_of};
ghost use Rattle.hb_planrows.specs.PlanRows.{IsSited};
ghost use Rattle.hb_definerows.specs.DefineRows.{TellsArea, TellAreas};

use crate::putting::push_some;
use hb_dict::{AreaDef, DictFault, read_area};
use hb_types::{NoMemory, Stored, Text};
use std::alloc::Global;
use std::marker::Model;

/// An area of a back end: its number and its name.
#[derive(Drop)]
pub struct Area {
    number: u16,
    name: Text,
}

impl Model for Area {
    ghost use Rattle.hb_model.specs.State.{Area as Told};
    ghost use Rattle.hb_planrows.specs.PlanRows.{IsSited};

    ghost Value = { Told };

    ghost view = { λ a. record { number = a.number; name = a.name } };

    ghost invariant = { λ a. IsSited a.number };
}

impl Area {
    pub fn number(&self) -> u16
        ensures number { result ≡ self.now.number }
        ensures sited { IsSited result }
    {
        self.number
    }

    fn is_named(&self, name: &[u8]) -> bool
        ensures { result ≡ bytes_eq self.now.name name.now }
    {
        self.name.as_slice() == name
    }
}

// The number of an area of a back end, from the key of its row.
fn number_in(key: i64) -> Option<u16>
    ensures { MatchOption result ((n : ℕ) → IsSited n → key ≡ pos n → ⊥) (λ n. (key ≡ pos n) × IsSited n) }
{
    if 256 <= key && key < 2304 {
        Some(key as u16)
    } else {
        None
    }
}

// The area of a number that a row tells.
fn area_at(alloc: Global, number: u16, row: &Stored) -> Result<Option<Area>, NoMemory>
    requires at { row.now.place.key ≡ pos number }
    requires sited { IsSited number }
    ensures { TellsArea row.now → IfOk result (λ a. a ≡ area_of row.now) }
{
    match read_area(alloc, row.row.as_slice()) {
        Ok(area) => {
            let AreaDef { name, bes } = area;
            if u16::from(bes) == number / 256 {
                Ok(Some(Area { number, name }))
            } else {
                Ok(None)
            }
        }
        Err(DictFault::NotOfShape) => Ok(None),
        Err(DictFault::NoMemory) => Err(NoMemory),
    }
}

fn area_in_row(alloc: Global, row: &Stored) -> Result<Option<Area>, NoMemory>
    ensures { TellsArea row.now → IfOk result (λ a. a ≡ area_of row.now) }
{
    match number_in(row.place.key) {
        Some(number) => area_at(alloc, number, row),
        None => Ok(None),
    }
}

/// The areas that rows tell. Rows that are none are passed over.
pub fn read_areas(alloc: Global, rows: &[Stored]) -> Result<Vec<Area>, NoMemory>
    ensures { TellAreas rows.now → IfOk result (λ areas. areas.items ≡ filter_map area_of rows.now) }
{
    let mut areas = Vec::new(alloc);
    for row in rows {
        push_some(&mut areas, area_in_row(alloc, row)?)?;
    }
    Ok(areas)
}

/// The number of the area of a name.
pub fn find_area(areas: &[Area], name: &[u8]) -> Option<u16>
    ensures found { result ≡ option_map (λ a. a.number) (find (λ a. bytes_eq a.name name.now) areas.now) }
    ensures sited { IfSome result IsSited }
{
    match areas.iter().find(|area| area.is_named(name)) {
        Some(area) => Some(area.number()),
        None => None,
    }
}
