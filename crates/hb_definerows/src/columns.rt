// The columns and the areas that CREATE TABLE names.
ghost use Rattle.std.specs.Prelude.{◌≡◌, ◌≤◌, ◌||◌, not, nat_lt, position, length};
ghost use Rattle.std.specs.List.{list_any};
ghost use Rattle.std.specs.Str.{bytes_eq};
ghost use Rattle.hb_types.specs.Lists.{has_twins};
ghost use Rattle.hb_model.specs.Define.{is_key_number as key_number, key_position as position_of_key};
ghost use Rattle.hb_model.specs.Refusals.{first_refusal};
ghost use Rattle.hb_definerows.specs.DefineRows.{columns_refusals};

use hb_model::Reply;
use hb_types::{Column, Text};

fn is_column(columns: &[Column], name: &[u8]) -> bool
    ensures { result ≡ list_any (λ c. bytes_eq c.name name.now) columns.now }
{
    columns.iter().any(|c| c.name.as_slice() == name)
}

fn is_like_one(name: &[u8], columns: &[Column]) -> bool
    ensures { result ≡ list_any (λ c. bytes_eq name.now c.name) columns.now }
{
    columns.iter().any(|c| name == c.name.as_slice())
}

fn have_twins(columns: &[Column]) -> bool
    ensures { result ≡ has_twins (λ a b. bytes_eq a.name b.name) columns.now }
{
    match columns {
        [] => false,
        [column, rest @ ..] => is_like_one(column.name.as_slice(), rest) || have_twins(rest),
    }
}

fn is_name_among(name: &[u8], names: &[Text]) -> bool
    ensures { result ≡ list_any (bytes_eq name.now) names.now }
{
    names.iter().any(|n| name == n.as_slice())
}

/// Whether a name stands twice.
pub(crate) fn names_have_twins(names: &[Text]) -> bool
    ensures { result ≡ has_twins bytes_eq names.now }
{
    match names {
        [] => false,
        [name, rest @ ..] => is_name_among(name.as_slice(), rest) || names_have_twins(rest),
    }
}

fn is_key_number(columns: &[Column], key: &[u8]) -> bool
    ensures { result ≡ key_number columns.now key.now }
{
    columns
        .iter()
        .any(|c| c.name.as_slice() == key && c.size == 0)
}

fn is_too_long(columns: &[Column]) -> bool
    ensures { result ≡ list_any (λ c. nat_lt 255 c.size) columns.now }
{
    columns.iter().any(|c| 255 < c.size)
}

fn is_mistyped(columns: &[Column], key: &[u8]) -> bool
    ensures { result ≡ (not (key_number columns.now key.now) || list_any (λ c. nat_lt 255 c.size) columns.now) }
{
    !is_key_number(columns, key) || is_too_long(columns)
}

/// Why a table of these columns and this key is not created.
pub(crate) fn columns_refusal(columns: &[Column], key: &[u8]) -> Option<Reply>
    ensures { result ≡ first_refusal (columns_refusals columns.now key.now) }
{
    if have_twins(columns) {
        Some(Reply::ColumnTwice)
    } else if !is_column(columns, key) {
        Some(Reply::NoColumn)
    } else if is_mistyped(columns, key) {
        Some(Reply::WrongType)
    } else {
        None
    }
}

fn place_of(columns: &[Column], key: &[u8]) -> Option<usize>
    ensures { result ≡ position (λ c. bytes_eq c.name key.now) columns.now }
{
    columns.iter().position(|c| c.name.as_slice() == key)
}

/// The position of the key's column.
#[tactic(auto, using(crate::proofs::Accepting::place_below))]
pub(crate) fn key_position(columns: &[Column], key: &[u8]) -> u8
    requires few { length columns.now ≤ 16 }
    ensures { result ≡ position_of_key columns.now key.now }
{
    match place_of(columns, key) {
        Some(position) => position as u8,
        None => 0,
    }
}
