// Why a SELECT or a DELETE is refused before any row is looked at.
ghost use Rattle.std.specs.Prelude.{◌≡◌, take, not, ◌||◌};
ghost use Rattle.std.specs.List.{list_any, list_all};
ghost use Rattle.std.specs.Str.{bytes_eq};
ghost use Rattle.hb_model.specs.Kinds.{Kind as Told, same_kind, kind_of_column as kind_in_column};
ghost use Rattle.hb_model.specs.Refusals.{first_refusal, select_refusals, what_names, what_typed as typed_what, pred_names, pred_typed as typed_pred, has_kind as kind_has};
ghost use Rattle.hb_sqlcheck.specs.Checks.{kind_told, unknown_in};

use crate::kinds::{Kind, is_typed, kind_of_column};
use crate::names::{is_unknown, pred_has_unknown};
use hb_model::{Pred, Reply, Table, What};
use hb_types::Column;

/// Whether each column of this name is of this kind.
pub fn has_kind(table: &Table, kind: Kind, name: &[u8]) -> bool
    ensures { result ≡ kind_has table.now (kind_told kind) name.now }
{
    table
        .columns
        .as_slice()
        .iter()
        .all(|c| c.name.as_slice() != name || kind_of_column(c) == kind)
}

fn what_has_unknown(columns: &[Column], what: &What) -> bool
    ensures { result ≡ list_any (unknown_in columns.now) (what_names what.now) }
{
    match what {
        What::Names(names) => names
            .as_slice()
            .iter()
            .any(|name| is_unknown(columns, name.as_slice())),
        What::Sum(name) => is_unknown(columns, name.as_slice()),
        What::All | What::Count => false,
    }
}

fn what_is_typed(table: &Table, what: &What) -> bool
    ensures { result ≡ typed_what table.now what.now }
{
    match what {
        What::Sum(name) => has_kind(table, Kind::Number, name.as_slice()),
        _ => true,
    }
}

/// Whether a condition, if there is one, has a name that is no column.
pub fn where_has_unknown(columns: &[Column], pred: &Option<Pred>) -> bool
    ensures { result ≡ list_any (unknown_in columns.now) (pred_names pred.now) }
{
    match pred {
        Some(pred) => pred_has_unknown(columns, pred),
        None => false,
    }
}

/// Whether a condition, if there is one, compares only like with like.
pub fn where_is_typed(table: &Table, pred: &Option<Pred>) -> bool
    ensures { result ≡ typed_pred table.now pred.now }
{
    match pred {
        Some(pred) => is_typed(table.columns.as_slice(), pred),
        None => true,
    }
}

/// The first refusal of a SELECT by its names and kinds.
#[tactic(auto, using(crate::proofs::Levels::any_append))]
pub fn select_check(table: &Table, what: &What, pred: &Option<Pred>) -> Option<Reply>
    ensures { result ≡ first_refusal (take 2 (select_refusals table.now what.now pred.now)) }
{
    let columns = table.columns.as_slice();
    if what_has_unknown(columns, what) || where_has_unknown(columns, pred) {
        Some(Reply::NoColumn)
    } else if !(what_is_typed(table, what) && where_is_typed(table, pred)) {
        Some(Reply::WrongType)
    } else {
        None
    }
}
