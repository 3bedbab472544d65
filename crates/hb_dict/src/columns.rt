// The columns of a table as values: a name and a size each.
ghost use Rattle.std.specs.Prelude.{◌≡◌, ◌≤◌, ◌++◌, ◌∷◌, pos, List, IfOk, OnOk, IsErrOf};
ghost use Rattle.hb_types.specs.declared.value.Column.{Column};
ghost use Rattle.hb_types.specs.declared.value.Value.{Value};
ghost use Rattle.hb_types.specs.declared.value.Value.TheVariants as value_is;
ghost use Rattle.hb_types.specs.Lists.{Each};
ghost use Rattle.hb_dict.specs.DictionaryRows.{column_values, AreColumns};

use crate::fault::DictFault;
use crate::row::small;
use hb_types::{Column, NoMemory, Value};
use sqlite_items::Items;
use std::alloc::Global;

pub(crate) fn put_columns(
    alloc: Global,
    values: &mut Items<Value>,
    columns: &[Column],
) -> Result<(), NoMemory>
    ensures { OnOk result (values.new ≡ values.old ++ column_values columns.now) }
{
    for column in columns {
        values.push(Value::Text(column.name.copy(alloc)?))?;
        values.push(Value::Int(column.size as i128))?;
    }
    Ok(())
}

// The column at the front of the values, and what stands behind it.
fn column_at(alloc: Global, values: &[Value]) -> Result<(Column, &[Value]), DictFault>
    ensures column { IfOk result (λ x. values.now ≡ value_is.Text x.0.name ∷ value_is.Int (pos x.0.size) ∷ x.1.now) }
    ensures small { IfOk result (λ x. x.0.size ≤ 255) }
    ensures refused { IsErrOf result DictFault.NotOfShape → (c : Column) (more : List Value) → c.size ≤ 255 → values.now ≡ value_is.Text c.name ∷ value_is.Int (pos c.size) ∷ more → ⊥ }
{
    match values {
        [Value::Text(name), size, rest @ ..] => match small(size) {
            Some(size) => {
                let name = name.copy(alloc)?;
                let size = size as u16;
                Ok((Column { name, size }, rest))
            }
            None => Err(DictFault::NotOfShape),
        },
        _ => Err(DictFault::NotOfShape),
    }
}

pub(crate) fn columns_of(alloc: Global, values: &[Value]) -> Result<Items<Column>, DictFault>
    ensures columns { IfOk result (λ cs. AreColumns values.now cs) }
    ensures refused { IsErrOf result DictFault.NotOfShape → (cs : List Column) → AreColumns values.now cs → ⊥ }
{
    let mut columns = Items::new(alloc);
    let mut rest = values;
    while rest.len() > 0 {
        let (column, after) = column_at(alloc, rest)?;
        columns.push(column)?;
        rest = after;
    }
    Ok(columns)
}
