// Changes that put rows of the dictionary, one behind another.
ghost use Rattle.std.specs.Prelude.{◌≡◌, ◌≤◌, ◌++◌, pos, Some, OnOk, IfOk, length};
ghost use Rattle.std.specs.Option.{option_to_list};
ghost use Rattle.hb_types.specs.Rows.{IsRow};
ghost use Rattle.hb_model.specs.Spots.{dictionary_space};
ghost use Rattle.hb_definerows.specs.DefineRows.{IsDefined};

use hb_types::{Bytes, Change, NoMemory, Place, Space};

/// Adds an item, if there is one.
pub(crate) fn push_some<T: Drop>(items: &mut Vec<T>, item: Option<T>) -> Result<(), NoMemory>
    ensures { OnOk result (items.new.items ≡ items.old.items ++ option_to_list item) }
{
    match item {
        Some(item) => {
            items.push(item)?;
            Ok(())
        }
        None => Ok(()),
    }
}

/// The change that puts a row of the dictionary.
pub(crate) fn put_row(table: u16, group: u16, key: u16, row: Bytes) -> Change
    requires { IsRow row }
    ensures change { result ≡ record { place = record { space = dictionary_space table; group = group; key = pos key }; row = Some row } }
    ensures sound { IsDefined result }
{
    let space = Space { area: 0, table };
    let key = i64::from(key);
    let place = Place { space, group, key };
    Change {
        place,
        row: Some(row),
    }
}
