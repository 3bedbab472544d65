// The columns of a new table, token by token.
ghost use Rattle.std.specs.Prelude.{◌≡◌, IfOk, Some, [], ◌∷◌, ◌++◌};
ghost use Rattle.hb_sqlsteps.specs.Kept.{column, varchar_size};
ghost use Rattle.hb_sqlsteps.specs.ListSteps.{step_columns, size_in};
ghost use Rattle.hb_sqlsteps.specs.declared.columns.Columns.TheVariants as columns_at;

use crate::marks::{Mark, is_mark, is_word, name_of, on_mark, on_word};
use hb_sqltoken::{Token, Word};
use hb_types::{Column, NoMemory, Text};
use sqlite_items::Items;
use std::alloc::Global;

/// Columns, as far as they have come.
#[derive(Drop)]
pub enum Columns {
    /// A column is wanted.
    Want(Items<Column>),
    /// A column's name is there.
    Named(Items<Column>, Text),
    Varchar(Items<Column>, Text),
    /// The size is wanted.
    Open(Items<Column>, Text),
    /// The parenthesis behind the size is wanted.
    Size(Items<Column>, Column),
    /// The last column is there.
    Have(Items<Column>),
}

fn size_in(token: &Token) -> Option<u16>
    ensures { result ≡ size_in token.now }
{
    match token {
        Token::Number(n) => {
            let n = *n;
            if 1 <= n && n <= 255 {
                Some(n as u16)
            } else {
                Some(65535)
            }
        }
        _ => None,
    }
}

fn with_column(columns: Items<Column>, column: Column) -> Result<Option<Columns>, NoMemory>
    ensures { IfOk result (λ n. n ≡ Some (columns_at.Have (columns ++ column ∷ []))) }
{
    let mut columns = columns;
    columns.push(column)?;
    Ok(Some(Columns::Have(columns)))
}

impl Columns {
    pub(crate) fn start(alloc: Global) -> Columns
        ensures { result ≡ columns_at.Want [] }
    {
        Columns::Want(Items::new(alloc))
    }

    pub(crate) fn step(self, token: Token) -> Result<Option<Columns>, NoMemory>
        ensures { IfOk result (λ n. n ≡ step_columns self token) }
    {
        match self {
            Columns::Want(columns) => match name_of(token) {
                Some(name) => Ok(Some(Columns::Named(columns, name))),
                None => Ok(None),
            },
            Columns::Named(columns, name) => {
                if is_word(Word::Integer, &token) {
                    with_column(columns, Column { name, size: 0 })
                } else {
                    Ok(on_word(Word::Varchar, &token, Columns::Varchar(columns, name)))
                }
            }
            Columns::Varchar(columns, name) => {
                Ok(on_mark(Mark::Open, &token, Columns::Open(columns, name)))
            }
            Columns::Open(columns, name) => match size_in(&token) {
                Some(size) => Ok(Some(Columns::Size(columns, Column { name, size }))),
                None => Ok(None),
            },
            Columns::Size(columns, column) => {
                if is_mark(Mark::Close, &token) {
                    with_column(columns, column)
                } else {
                    Ok(None)
                }
            }
            Columns::Have(columns) => Ok(on_mark(Mark::Comma, &token, Columns::Want(columns))),
        }
    }
}
