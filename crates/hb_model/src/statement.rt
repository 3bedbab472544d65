// Statements of SQL.
ghost use Rattle.std.specs.Prelude.{◌≡◌, IfOk};

use crate::condition::Pred;
use crate::expression::Expr;
use hb_types::{Column, Copied, NoMemory, Text, Value, copied_items, copied_option};
use sqlite_items::Items;
use std::alloc::Global;

/// What a SELECT shows.
#[derive(Drop)]
pub enum What {
    All,
    Names(Items<Text>),
    Count,
    Sum(Text),
}

/// An assignment of an UPDATE.
#[derive(Drop)]
pub struct Set {
    pub name: Text,
    pub value: Expr,
}

/// A statement of SQL.
#[derive(Drop)]
pub enum Statement {
    CreateArea {
        name: Text,
        node: Text,
    },
    CreateTable {
        name: Text,
        columns: Items<Column>,
        key: Text,
        areas: Items<Text>,
    },
    AddArea {
        table: Text,
        area: Text,
    },
    Insert {
        table: Text,
        values: Items<Value>,
    },
    Select {
        what: What,
        table: Text,
        pred: Option<Pred>,
    },
    Update {
        table: Text,
        sets: Items<Set>,
        pred: Option<Pred>,
    },
    Delete {
        table: Text,
        pred: Option<Pred>,
    },
    LockTable {
        table: Text,
        exclusive: bool,
    },
    Commit,
    Rollback,
}

impl What {
    pub fn copy(&self, alloc: Global) -> Result<What, NoMemory>
        ensures { IfOk result (λ c. c ≡ self.now) }
    {
        match self {
            What::All => Ok(What::All),
            What::Names(names) => Ok(What::Names(copied_items(alloc, names)?)),
            What::Count => Ok(What::Count),
            What::Sum(name) => Ok(What::Sum(name.copy(alloc)?)),
        }
    }
}

impl Set {
    pub fn copy(&self, alloc: Global) -> Result<Set, NoMemory>
        ensures { IfOk result (λ c. c ≡ self.now) }
    {
        let name = self.name.copy(alloc)?;
        let value = self.value.copy(alloc)?;
        Ok(Set { name, value })
    }
}

impl Copied for Set {
    fn copied(&self, alloc: Global) -> Result<Set, NoMemory> {
        self.copy(alloc)
    }
}

impl Statement {
    pub fn copy(&self, alloc: Global) -> Result<Statement, NoMemory>
        ensures { IfOk result (λ c. c ≡ self.now) }
    {
        match self {
            Statement::CreateArea { name, node } => {
                let name = name.copy(alloc)?;
                let node = node.copy(alloc)?;
                Ok(Statement::CreateArea { name, node })
            }
            Statement::CreateTable {
                name,
                columns,
                key,
                areas,
            } => {
                let name = name.copy(alloc)?;
                let columns = copied_items(alloc, columns)?;
                let key = key.copy(alloc)?;
                let areas = copied_items(alloc, areas)?;
                Ok(Statement::CreateTable {
                    name,
                    columns,
                    key,
                    areas,
                })
            }
            Statement::AddArea { table, area } => {
                let table = table.copy(alloc)?;
                let area = area.copy(alloc)?;
                Ok(Statement::AddArea { table, area })
            }
            Statement::Insert { table, values } => {
                let table = table.copy(alloc)?;
                let values = copied_items(alloc, values)?;
                Ok(Statement::Insert { table, values })
            }
            Statement::Select { what, table, pred } => {
                let what = what.copy(alloc)?;
                let table = table.copy(alloc)?;
                let pred = copied_option(alloc, pred)?;
                Ok(Statement::Select { what, table, pred })
            }
            Statement::Update { table, sets, pred } => {
                let table = table.copy(alloc)?;
                let sets = copied_items(alloc, sets)?;
                let pred = copied_option(alloc, pred)?;
                Ok(Statement::Update { table, sets, pred })
            }
            Statement::Delete { table, pred } => {
                let table = table.copy(alloc)?;
                let pred = copied_option(alloc, pred)?;
                Ok(Statement::Delete { table, pred })
            }
            Statement::LockTable { table, exclusive } => Ok(Statement::LockTable {
                table: table.copy(alloc)?,
                exclusive: *exclusive,
            }),
            Statement::Commit => Ok(Statement::Commit),
            Statement::Rollback => Ok(Statement::Rollback),
        }
    }
}
