// The values of a row, and the columns that they stand in.
ghost use Rattle.std.specs.Prelude.{◌≡◌, IfOk};

use crate::copying::Copied;
use crate::memory::NoMemory;
use crate::text;
use std::alloc::Global;

/// A value of a row.
#[derive(Debug, Drop)]
pub enum Value {
    Int(i128),
    Text(text::Text),
}

impl Value {
    pub fn copy(&self, alloc: Global) -> Result<Value, NoMemory>
        ensures { IfOk result (λ v. v ≡ self.now) }
    {
        match self {
            Value::Int(n) => Ok(Value::Int(*n)),
            Value::Text(t) => Ok(Value::Text(t.copy(alloc)?)),
        }
    }
}

/// A column: size 0 for INTEGER, n for VARCHAR(n).
#[derive(Debug, Drop)]
pub struct Column {
    pub name: text::Text,
    pub size: u16,
}

impl Column {
    pub fn copy(&self, alloc: Global) -> Result<Column, NoMemory>
        ensures { IfOk result (λ c. c ≡ self.now) }
    {
        let name = self.name.copy(alloc)?;
        Ok(Column {
            name,
            size: self.size,
        })
    }
}

impl Copied for Value {
    fn copied(&self, alloc: Global) -> Result<Value, NoMemory> {
        self.copy(alloc)
    }
}

impl Copied for Column {
    fn copied(&self, alloc: Global) -> Result<Column, NoMemory> {
        self.copy(alloc)
    }
}
