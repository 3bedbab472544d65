// Why an UPDATE is refused before any row is looked at.
ghost use Rattle.std.specs.Prelude.{◌≡◌, ◌||◌, take};
ghost use Rattle.std.specs.List.{list_any, list_all};
ghost use Rattle.std.specs.Str.{bytes_eq};
ghost use Rattle.hb_types.specs.Lists.{has_twins as twins};
ghost use Rattle.hb_model.specs.Kinds.{names_in};
ghost use Rattle.hb_model.specs.Refusals.{first_refusal, is_assignable as assignable, sets_names, update_refusals};
ghost use Rattle.hb_model.specs.Rows.{key_name as name_of_key};
ghost use Rattle.hb_sqlcheck.specs.Checks.{unknown_in};

use hb_model::{Pred, Reply, Set, Table};
use hb_sqlcheck::{
    expr_has_unknown, has_kind, is_unknown, kind_of, where_has_unknown, where_is_typed,
};
use hb_sqlrow::key_name;
use hb_types::Column;

fn set_has_unknown(columns: &[Column], set: &Set) -> bool
    ensures { result ≡ (unknown_in columns.now set.now.name || list_any (unknown_in columns.now) (names_in set.now.value)) }
{
    is_unknown(columns, set.name.as_slice()) || expr_has_unknown(columns, &set.value)
}

fn any_has_unknown(columns: &[Column], sets: &[Set]) -> bool
    ensures { result ≡ list_any (λ s. unknown_in columns.now s.name || list_any (unknown_in columns.now) (names_in s.value)) sets.now }
{
    sets.iter().any(|set| set_has_unknown(columns, set))
}

// Whether assignments name what is no column.
fn sets_have_unknown(columns: &[Column], sets: &[Set]) -> bool
    ensures { result ≡ list_any (unknown_in columns.now) (sets_names sets.now) }
{
    any_has_unknown(columns, sets)
}

fn is_among(name: &[u8], sets: &[Set]) -> bool
    ensures { result ≡ list_any (λ s. bytes_eq name.now s.name) sets.now }
{
    sets.iter().any(|s| name == s.name.as_slice())
}

// Whether two assignments are to one column.
fn has_twins(sets: &[Set]) -> bool
    ensures { result ≡ twins (λ a b. bytes_eq a.name b.name) sets.now }
{
    match sets {
        [] => false,
        [set, rest @ ..] => is_among(set.name.as_slice(), rest) || has_twins(rest),
    }
}

// Whether an assignment is to the key column.
fn sets_the_key(table: &Table, sets: &[Set]) -> bool
    ensures { result ≡ list_any (λ s. bytes_eq s.name (name_of_key table.now)) sets.now }
{
    let key = key_name(table);
    sets.iter().any(|s| s.name.as_slice() == key)
}

// Whether an assignment is of its column's kind.
fn is_assignable(table: &Table, set: &Set) -> bool
    ensures { result ≡ assignable table.now set.now }
{
    match kind_of(table.columns.as_slice(), &set.value) {
        Some(kind) => has_kind(table, kind, set.name.as_slice()),
        None => false,
    }
}

fn are_assignable(table: &Table, sets: &[Set]) -> bool
    ensures { result ≡ list_all (assignable table.now) sets.now }
{
    sets.iter().all(|set| is_assignable(table, set))
}

/// The first refusal of an UPDATE by its names and kinds.
#[tactic(auto, using(hb_sqlcheck::proofs::Levels::any_append))]
pub(crate) fn update_check(table: &Table, sets: &[Set], pred: &Option<Pred>) -> Option<Reply>
    ensures { result ≡ first_refusal (take 4 (update_refusals table.now sets.now pred.now)) }
{
    let columns = table.columns.as_slice();
    if sets_have_unknown(columns, sets) || where_has_unknown(columns, pred) {
        Some(Reply::NoColumn)
    } else if has_twins(sets) {
        Some(Reply::ColumnTwice)
    } else if sets_the_key(table, sets) {
        Some(Reply::KeyFixed)
    } else if !(are_assignable(table, sets) && where_is_typed(table, pred)) {
        Some(Reply::WrongType)
    } else {
        None
    }
}
