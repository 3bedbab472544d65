// Refusals before any row is read.
ghost use Rattle.std.specs.Prelude.{◌≡◌, []};
ghost use Rattle.hb_model.specs.Refusals.{first_refusal, select_refusals, update_refusals};
ghost use Rattle.hb_model.specs.Rows.{outside, point as point_of};
ghost use Rattle.hb_talk.specs.Plans.{with_lying};
ghost use Rattle.hb_endings.specs.Overflowing.{or_overflow};

use crate::choosing::is_outside;
use crate::updates::update_check;
use hb_model::{Pred, Reply, Set, Table, What};
use hb_sqlcheck::select_check;

// A refusal that was found, else one of a key outside INTEGER.
fn or_outside(found: Option<Reply>, table: &Table, pred: &Option<Pred>) -> Option<Reply>
    ensures { result ≡ or_overflow found (outside (point_of table.now pred.now)) }
{
    match found {
        Some(reply) => Some(reply),
        None => {
            if is_outside(table, pred) {
                Some(Reply::Overflow)
            } else {
                None
            }
        }
    }
}

/// The first refusal of a SELECT on a table without rows; that of a DELETE is the one of all columns.
pub fn early_select(table: &Table, what: &What, pred: &Option<Pred>) -> Option<Reply>
    ensures { result ≡ first_refusal (select_refusals (with_lying table.now []) what.now pred.now) }
{
    or_outside(select_check(table, what, pred), table, pred)
}

/// The first refusal of an UPDATE on a table without rows.
pub fn early_update(table: &Table, sets: &[Set], pred: &Option<Pred>) -> Option<Reply>
    ensures { result ≡ first_refusal (update_refusals (with_lying table.now []) sets.now pred.now) }
{
    or_outside(update_check(table, sets, pred), table, pred)
}
