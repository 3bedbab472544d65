// CREATE TABLE, token by token.
ghost use Rattle.std.specs.Prelude.{◌≡◌, IfOk};
ghost use Rattle.hb_sqlsteps.specs.DefinitionSteps.{new_table, with_areas, in_columns, in_areas, step_create_table};

use crate::columns::Columns;
use crate::definitions::whole;
use crate::lists::Names;
use crate::marks::{Mark, is_mark, name_of, on_mark, on_word};
use crate::position::Position;
use hb_model::{Statement, Work};
use hb_sqltoken::{Token, Word};
use hb_types::{Column, NoMemory, Text};
use sqlite_items::Items;
use std::alloc::Global;

/// A table before its areas are named.
#[derive(Drop)]
pub struct NewTable {
    pub name: Text,
    pub columns: Items<Column>,
    pub key: Text,
}

/// Behind CREATE TABLE, the name, in the columns, behind them, HASH, HASHA, BY, the key, IN, in the areas.
#[derive(Drop)]
pub enum CreateTable {
    Start,
    Named(Text),
    Columns(Text, Columns),
    Closed(Text, Items<Column>),
    Hash(Text, Items<Column>),
    Hasha(Text, Items<Column>),
    By(Text, Items<Column>),
    Keyed(NewTable),
    In(NewTable),
    Areas(NewTable, Names),
}

impl NewTable {
    fn with_areas(self, areas: Items<Text>) -> Work
        ensures { result ≡ with_areas self areas }
    {
        let NewTable { name, columns, key } = self;
        Work::Sql(Statement::CreateTable {
            name,
            columns,
            key,
            areas,
        })
    }
}

fn in_columns(name: Text, columns: Columns, token: Token) -> Result<Option<Position>, NoMemory>
    ensures { IfOk result (λ p. p ≡ in_columns name columns token) }
{
    let columns = match columns {
        Columns::Have(columns) => {
            if is_mark(Mark::Close, &token) {
                return Ok(Some(Position::CreateTable(CreateTable::Closed(name, columns))));
            }
            Columns::Have(columns)
        }
        columns => columns,
    };
    match columns.step(token)? {
        Some(columns) => Ok(Some(Position::CreateTable(CreateTable::Columns(name, columns)))),
        None => Ok(None),
    }
}

fn in_areas(
    alloc: Global,
    table: NewTable,
    areas: Names,
    token: Token,
) -> Result<Option<Position>, NoMemory>
    ensures { IfOk result (λ p. p ≡ in_areas table areas token) }
{
    if is_mark(Mark::Close, &token) {
        match areas.finish() {
            Some(areas) => whole(alloc, table.with_areas(areas)),
            None => Ok(None),
        }
    } else {
        match areas.step(token)? {
            Some(areas) => Ok(Some(Position::CreateTable(CreateTable::Areas(table, areas)))),
            None => Ok(None),
        }
    }
}

impl CreateTable {
    pub(crate) fn step(self, alloc: Global, token: Token) -> Result<Option<Position>, NoMemory>
        ensures { IfOk result (λ p. p ≡ step_create_table self token) }
    {
        match self {
            CreateTable::Start => match name_of(token) {
                Some(name) => Ok(Some(Position::CreateTable(CreateTable::Named(name)))),
                None => Ok(None),
            },
            CreateTable::Named(name) => {
                let next = CreateTable::Columns(name, Columns::start(alloc));
                Ok(on_mark(Mark::Open, &token, Position::CreateTable(next)))
            }
            CreateTable::Columns(name, columns) => in_columns(name, columns, token),
            CreateTable::Closed(name, columns) => {
                let next = CreateTable::Hash(name, columns);
                Ok(on_word(Word::Hash, &token, Position::CreateTable(next)))
            }
            CreateTable::Hash(name, columns) => {
                let next = CreateTable::Hasha(name, columns);
                Ok(on_word(Word::Hasha, &token, Position::CreateTable(next)))
            }
            CreateTable::Hasha(name, columns) => {
                let next = CreateTable::By(name, columns);
                Ok(on_word(Word::By, &token, Position::CreateTable(next)))
            }
            CreateTable::By(name, columns) => match name_of(token) {
                Some(key) => {
                    let table = NewTable { name, columns, key };
                    Ok(Some(Position::CreateTable(CreateTable::Keyed(table))))
                }
                None => Ok(None),
            },
            CreateTable::Keyed(table) => {
                let next = Position::CreateTable(CreateTable::In(table));
                Ok(on_word(Word::In, &token, next))
            }
            CreateTable::In(table) => {
                let next = CreateTable::Areas(table, Names::start(alloc));
                Ok(on_mark(Mark::Open, &token, Position::CreateTable(next)))
            }
            CreateTable::Areas(table, areas) => in_areas(alloc, table, areas, token),
        }
    }
}
