// INSERT, UPDATE and DELETE up to their conditions, token by token.
ghost use Rattle.std.specs.Prelude.{◌≡◌, IfOk};
ghost use Rattle.hb_sqlsteps.specs.RowSteps.{in_values, step_insert, in_sets, step_update, step_delete};

use crate::definitions::whole;
use crate::lists::Values;
use crate::marks::{Mark, is_mark, is_word, name_of, on_mark, on_word};
use crate::position::{Filtered, Position};
use crate::sets::Sets;
use hb_model::{Statement, Work};
use hb_sqlcond::PredParser;
use hb_sqltoken::{Token, Word};
use hb_types::{NoMemory, Text};
use std::alloc::Global;

/// Behind INSERT, INTO, the table's name, VALUES, in the values.
#[derive(Drop)]
pub enum Insert {
    Start,
    Into,
    Named(Text),
    Values(Text),
    Row(Text, Values),
}

/// Behind UPDATE, the table's name, in the assignments, which may be whole.
#[derive(Drop)]
pub enum Update {
    Start,
    Named(Text),
    Sets(Text, Sets),
}

/// Behind DELETE, FROM.
#[derive(Drop)]
pub enum Delete {
    Start,
    From,
}

fn in_values(
    alloc: Global,
    table: Text,
    values: Values,
    token: Token,
) -> Result<Option<Position>, NoMemory>
    ensures { IfOk result (λ p. p ≡ in_values table values token) }
{
    if is_mark(Mark::Close, &token) {
        match values.finish() {
            Some(values) => whole(alloc, Work::Sql(Statement::Insert { table, values })),
            None => Ok(None),
        }
    } else {
        match values.step(token)? {
            Some(values) => Ok(Some(Position::Insert(Insert::Row(table, values)))),
            None => Ok(None),
        }
    }
}

impl Insert {
    pub(crate) fn step(self, alloc: Global, token: Token) -> Result<Option<Position>, NoMemory>
        ensures { IfOk result (λ p. p ≡ step_insert self token) }
    {
        match self {
            Insert::Start => {
                let next = Position::Insert(Insert::Into);
                Ok(on_word(Word::Into, &token, next))
            }
            Insert::Into => match name_of(token) {
                Some(table) => Ok(Some(Position::Insert(Insert::Named(table)))),
                None => Ok(None),
            },
            Insert::Named(table) => {
                let next = Position::Insert(Insert::Values(table));
                Ok(on_word(Word::Values, &token, next))
            }
            Insert::Values(table) => {
                let next = Insert::Row(table, Values::start(alloc));
                Ok(on_mark(Mark::Open, &token, Position::Insert(next)))
            }
            Insert::Row(table, values) => in_values(alloc, table, values, token),
        }
    }
}

fn in_sets(
    alloc: Global,
    table: Text,
    sets: Sets,
    token: Token,
) -> Result<Option<Position>, NoMemory>
    ensures { IfOk result (λ p. p ≡ in_sets table sets token) }
{
    if is_word(Word::Where, &token) {
        match sets.finish(alloc)? {
            Some(sets) => {
                let update = Filtered::Update { table, sets };
                Ok(Some(Position::Where(update, PredParser::start(alloc))))
            }
            None => Ok(None),
        }
    } else {
        match sets.step(alloc, token)? {
            Some(sets) => Ok(Some(Position::Update(Update::Sets(table, sets)))),
            None => Ok(None),
        }
    }
}

impl Update {
    pub(crate) fn step(self, alloc: Global, token: Token) -> Result<Option<Position>, NoMemory>
        ensures { IfOk result (λ p. p ≡ step_update self token) }
    {
        match self {
            Update::Start => match name_of(token) {
                Some(table) => Ok(Some(Position::Update(Update::Named(table)))),
                None => Ok(None),
            },
            Update::Named(table) => {
                let next = Update::Sets(table, Sets::start(alloc));
                Ok(on_word(Word::Set, &token, Position::Update(next)))
            }
            Update::Sets(table, sets) => in_sets(alloc, table, sets, token),
        }
    }
}

impl Delete {
    pub(crate) fn step(self, token: Token) -> Option<Position>
        ensures { result ≡ step_delete self token }
    {
        match self {
            Delete::Start => on_word(Word::From, &token, Position::Delete(Delete::From)),
            Delete::From => match name_of(token) {
                Some(table) => Some(Position::Unfiltered(Filtered::Delete { table })),
                None => None,
            },
        }
    }
}
