// What is given to a session, and what a run answers.

use crate::reply::Reply;
use crate::statement::Statement;
use hb_types::Text;

/// What is given to a session.
#[derive(Drop)]
pub enum Work {
    Sql(Statement),
    Rebalance { table: Text, rows: u32, turns: u32 },
}

/// One answer of a run: the session by its place among the names, what it answers, and the answer.
#[derive(Drop)]
pub struct Line {
    pub session: Option<u64>,
    pub work: Option<Work>,
    pub reply: Reply,
}
