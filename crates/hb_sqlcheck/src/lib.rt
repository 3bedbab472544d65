//! What is refused of a statement on a table before any row is looked at: names that are no column, and kinds that don't agree.
#![tactic(auto)]

mod kinds;
mod names;
mod selects;

pub use kinds::{Kind, is_typed, kind_of};
pub use names::{expr_has_unknown, is_unknown, pred_has_unknown};
pub use selects::{has_kind, select_check, where_has_unknown, where_is_typed};
