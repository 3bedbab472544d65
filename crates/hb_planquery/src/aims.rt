// What a statement reads, unless it is refused before.
ghost use Rattle.std.specs.Prelude.{◌≡◌, true, false, FitsSigned};
ghost use Rattle.std.specs.Int.{w32};
ghost use Rattle.hb_types.specs.Numbers.{is_integer};
ghost use Rattle.hb_model.specs.Rows.{outside, point as point_of};
ghost use Rattle.hb_reading.specs.Aims.{HasKey};
ghost use Rattle.hb_planquery.specs.Queries.{Aims, AimsAt, considered_aim, early_insert, early_select as early_selecting, early_update as early_updating, insert_aim, lock_aim};

use crate::query::Query;
use hb_endings::{early_select, early_update};
use hb_model::{Pred, Reply, Set, Table, What};
use hb_planrows::{insert_refusal, inserted_key};
use hb_reading::Aim;
use hb_sqlrow::point;
use hb_types::{Mode, Value};

#[tactic(auto, using(std::proofs::lemmas::Int::ints))]
fn narrow(n: i128) -> i64
    requires { is_integer n ≡ true }
    ensures same { result ≡ n }
    ensures narrow { FitsSigned w32 result }
{
    n as i64
}

// The row of a key, or all rows.
#[tactic(auto, using(crate::proofs::Early::within))]
fn considered(mode: Mode, table: &Table, pred: &Option<Pred>) -> Aim
    requires { outside (point_of table.now pred.now) ≡ false }
    ensures aim { result ≡ considered_aim mode (point_of table.now pred.now) }
    ensures key { HasKey result }
{
    match point(table, pred) {
        Some(key) => Aim::Point(mode, narrow(key)),
        None => Aim::All(mode),
    }
}

#[tactic(auto, using(crate::proofs::Early::select_within))]
fn aim_of_select(mode: Mode, table: &Table, what: &What, pred: &Option<Pred>) -> Result<Aim, Reply>
    ensures { AimsAt (early_selecting table.now what.now pred.now) (considered_aim mode (point_of table.now pred.now)) result }
{
    match early_select(table, what, pred) {
        Some(reply) => Err(reply),
        None => Ok(considered(mode, table, pred)),
    }
}

#[tactic(auto, using(crate::proofs::Early::update_within))]
fn aim_of_update(table: &Table, sets: &[Set], pred: &Option<Pred>) -> Result<Aim, Reply>
    ensures { AimsAt (early_updating table.now sets.now pred.now) (considered_aim Mode.X (point_of table.now pred.now)) result }
{
    match early_update(table, sets, pred) {
        Some(reply) => Err(reply),
        None => Ok(considered(Mode::X, table, pred)),
    }
}

fn aim_of_insert(table: &Table, values: &[Value]) -> Result<Aim, Reply>
    ensures { AimsAt (early_insert table.now values.now) (insert_aim table.now values.now) result }
{
    match insert_refusal(table, values) {
        Some(reply) => Err(reply),
        None => Ok(Aim::Insert(i64::from(inserted_key(table, values)))),
    }
}

fn aim_of_lock(exclusive: bool) -> Aim
    ensures { result ≡ lock_aim exclusive }
{
    if exclusive {
        Aim::Locks(Mode::X)
    } else {
        Aim::Locks(Mode::S)
    }
}

/// What a statement reads of its table, or why it is refused before.
pub(crate) fn aim_of(query: &Query, table: &Table) -> Result<Aim, Reply>
    ensures { Aims query.now table.now result }
{
    match query {
        Query::Insert(values) => aim_of_insert(table, values.as_slice()),
        Query::Select(what, pred) => aim_of_select(Mode::S, table, what, pred),
        Query::Update(sets, pred) => aim_of_update(table, sets.as_slice(), pred),
        Query::Delete(pred) => aim_of_select(Mode::X, table, &What::All, pred),
        Query::Lock(exclusive) => Ok(aim_of_lock(*exclusive)),
    }
}
