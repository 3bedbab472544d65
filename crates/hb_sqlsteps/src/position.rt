// How far the words of a statement have come.
ghost use Rattle.std.specs.Prelude.{◌≡◌, None, Some};
ghost use Rattle.hb_sqlsteps.specs.Positions.{with_pred};

use crate::create_table::CreateTable;
use crate::definitions::{AddArea, CreateArea, LockTable};
use crate::rebalance::Rebalance;
use crate::rows::{Delete, Insert, Update};
use crate::select::Select;
use hb_model::{Pred, Set, Statement, What, Work};
use hb_sqlcond::PredParser;
use hb_types::Text;
use sqlite_items::{Boxed, Items};

/// A statement that may end with a condition.
#[derive(Drop)]
pub enum Filtered {
    Select { shown: What, table: Text },
    Update { table: Text, sets: Items<Set> },
    Delete { table: Text },
}

/// How far the words of a statement have come, by the statement.
#[derive(Drop)]
pub enum Position {
    Start,
    Create,
    CreateArea(CreateArea),
    CreateTable(CreateTable),
    AddArea(AddArea),
    LockTable(LockTable),
    Insert(Insert),
    Select(Select),
    Update(Update),
    Delete(Delete),
    Rebalance(Rebalance),
    /// A statement that is whole, and may take a condition.
    Unfiltered(Filtered),
    Where(Filtered, PredParser),
    Whole(Boxed<Work>),
}

impl Filtered {
    /// The statement with its condition.
    pub(crate) fn with_pred(self, pred: Option<Boxed<Pred>>) -> Work
        ensures { result ≡ with_pred self pred }
    {
        let pred = match pred {
            Some(pred) => Some(pred.into_inner()),
            None => None,
        };
        match self {
            Filtered::Select { shown, table } => Work::Sql(Statement::Select {
                what: shown,
                table,
                pred,
            }),
            Filtered::Update { table, sets } => {
                Work::Sql(Statement::Update { table, sets, pred })
            }
            Filtered::Delete { table } => Work::Sql(Statement::Delete { table, pred }),
        }
    }
}
