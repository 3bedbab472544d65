// CREATE RDAREA, ALTER TABLE and LOCK TABLE, token by token.
ghost use Rattle.std.specs.Prelude.{◌≡◌, IfOk, Some};
ghost use Rattle.hb_sqlsteps.specs.DefinitionSteps.{step_create_area, step_add_area, step_lock_table, lock_mode};
ghost use Rattle.hb_sqlsteps.specs.declared.position.Position.TheVariants as position;

use crate::marks::{is_word, name_of, on_word};
use crate::position::Position;
use hb_model::{Statement, Work};
use hb_sqltoken::{Token, Word};
use hb_types::{NoMemory, Text};
use sqlite_items::Boxed;
use std::alloc::Global;

/// Behind CREATE RDAREA, the area's name, ON.
#[derive(Drop)]
pub enum CreateArea {
    Start,
    Named(Text),
    On(Text),
}

/// Behind ALTER, TABLE, the table's name, ADD, RDAREA.
#[derive(Drop)]
pub enum AddArea {
    Start,
    Table,
    Named(Text),
    Add(Text),
    Area(Text),
}

/// Behind LOCK, TABLE, the table's name, IN, the mode.
#[derive(Drop)]
pub enum LockTable {
    Start,
    Table,
    Named(Text),
    In(Text),
    Mode(Text, bool),
}

pub(crate) fn whole(alloc: Global, work: Work) -> Result<Option<Position>, NoMemory>
    ensures { IfOk result (λ p. p ≡ Some (position.Whole work)) }
{
    Ok(Some(Position::Whole(Boxed::new(alloc, work)?)))
}

impl CreateArea {
    pub(crate) fn step(self, alloc: Global, token: Token) -> Result<Option<Position>, NoMemory>
        ensures { IfOk result (λ p. p ≡ step_create_area self token) }
    {
        match self {
            CreateArea::Start => match name_of(token) {
                Some(name) => Ok(Some(Position::CreateArea(CreateArea::Named(name)))),
                None => Ok(None),
            },
            CreateArea::Named(name) => {
                let next = Position::CreateArea(CreateArea::On(name));
                Ok(on_word(Word::On, &token, next))
            }
            CreateArea::On(name) => match name_of(token) {
                Some(node) => whole(alloc, Work::Sql(Statement::CreateArea { name, node })),
                None => Ok(None),
            },
        }
    }
}

impl AddArea {
    pub(crate) fn step(self, alloc: Global, token: Token) -> Result<Option<Position>, NoMemory>
        ensures { IfOk result (λ p. p ≡ step_add_area self token) }
    {
        match self {
            AddArea::Start => {
                let next = Position::AddArea(AddArea::Table);
                Ok(on_word(Word::Table, &token, next))
            }
            AddArea::Table => match name_of(token) {
                Some(table) => Ok(Some(Position::AddArea(AddArea::Named(table)))),
                None => Ok(None),
            },
            AddArea::Named(table) => {
                let next = Position::AddArea(AddArea::Add(table));
                Ok(on_word(Word::Add, &token, next))
            }
            AddArea::Add(table) => {
                let next = Position::AddArea(AddArea::Area(table));
                Ok(on_word(Word::Rdarea, &token, next))
            }
            AddArea::Area(table) => match name_of(token) {
                Some(area) => whole(alloc, Work::Sql(Statement::AddArea { table, area })),
                None => Ok(None),
            },
        }
    }
}

/// SHARE or EXCLUSIVE.
fn lock_mode(table: Text, token: &Token) -> Option<Position>
    ensures { result ≡ lock_mode table token.now }
{
    if is_word(Word::Share, token) {
        Some(Position::LockTable(LockTable::Mode(table, false)))
    } else if is_word(Word::Exclusive, token) {
        Some(Position::LockTable(LockTable::Mode(table, true)))
    } else {
        None
    }
}

impl LockTable {
    pub(crate) fn step(self, alloc: Global, token: Token) -> Result<Option<Position>, NoMemory>
        ensures { IfOk result (λ p. p ≡ step_lock_table self token) }
    {
        match self {
            LockTable::Start => {
                let next = Position::LockTable(LockTable::Table);
                Ok(on_word(Word::Table, &token, next))
            }
            LockTable::Table => match name_of(token) {
                Some(table) => Ok(Some(Position::LockTable(LockTable::Named(table)))),
                None => Ok(None),
            },
            LockTable::Named(table) => {
                let next = Position::LockTable(LockTable::In(table));
                Ok(on_word(Word::In, &token, next))
            }
            LockTable::In(table) => Ok(lock_mode(table, &token)),
            LockTable::Mode(table, exclusive) => {
                if is_word(Word::Mode, &token) {
                    whole(alloc, Work::Sql(Statement::LockTable { table, exclusive }))
                } else {
                    Ok(None)
                }
            }
        }
    }
}
