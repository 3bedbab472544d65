// Values that stand elsewhere.
ghost use Rattle.std.specs.Prelude.{◌≡◌, IfOk};
ghost use Rattle.hb_sqlexpr.specs.Seen.{seen, number_in};
ghost use Rattle.hb_types.specs.declared.value.Value.{Value};
ghost use Rattle.hb_types.specs.declared.value.Value.TheVariants as value;

use hb_types::{NoMemory, Text, Value};
use std::alloc::Global;

/// A value whose text stands elsewhere.
#[derive(Clone, Copy, Debug)]
pub enum Borrowed<'a> {
    Int(i128),
    Text(&'a [u8]),
}

impl<'a> Borrowed<'a> {
    pub fn of(value: &'a Value) -> Borrowed<'a>
        ensures { seen result ≡ value.now }
    {
        match value {
            Value::Int(n) => Borrowed::Int(*n),
            Value::Text(text) => Borrowed::Text(text.as_slice()),
        }
    }

    // The number, of a number.
    pub(crate) fn number(self) -> Option<i128>
        ensures { result ≡ number_in (seen self.entry) }
    {
        match self {
            Borrowed::Int(n) => Some(n),
            Borrowed::Text(_) => None,
        }
    }

    pub fn copy(self, alloc: Global) -> Result<Value, NoMemory>
        ensures { IfOk result (λ v. v ≡ seen self.entry) }
    {
        match self {
            Borrowed::Int(n) => Ok(Value::Int(n)),
            Borrowed::Text(text) => Ok(Value::Text(Text::new(Vec::from_slice(alloc, text)?))),
        }
    }
}
