// Statements on a table.
use hb_model::{Pred, Set, What};
use hb_types::Value;
use sqlite_items::Items;

/// What is wanted of a table.
#[derive(Drop)]
pub enum Query {
    Insert(Items<Value>),
    Select(What, Option<Pred>),
    Update(Items<Set>, Option<Pred>),
    Delete(Option<Pred>),
    /// A lock, exclusive or shared.
    Lock(bool),
}
