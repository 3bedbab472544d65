// Conditions on a row.
ghost use Rattle.std.specs.Prelude.{◌≡◌, IfOk};

use crate::expression::Expr;
use hb_types::{Copied, NoMemory};
use sqlite_items::Boxed;
use std::alloc::Global;

/// How two values are compared.
#[derive(Clone, Copy, Debug, PartialEq, Eq)]
pub enum Op {
    Eq,
    Ne,
    Lt,
    Le,
    Gt,
    Ge,
}

/// A condition on a row.
#[derive(Drop)]
pub enum Pred {
    Test(Op, Expr, Expr),
    Not(Boxed<Pred>),
    And(Boxed<Pred>, Boxed<Pred>),
    Or(Boxed<Pred>, Boxed<Pred>),
}

impl Pred {
    pub fn copy(&self, alloc: Global) -> Result<Pred, NoMemory>
        ensures { IfOk result (λ c. c ≡ self.now) }
    {
        match self {
            Pred::Test(op, a, b) => Ok(Pred::Test(*op, a.copy(alloc)?, b.copy(alloc)?)),
            Pred::Not(p) => Ok(Pred::Not(Boxed::new(alloc, p.get().copy(alloc)?)?)),
            Pred::And(p, q) => {
                let p = Boxed::new(alloc, p.get().copy(alloc)?)?;
                let q = Boxed::new(alloc, q.get().copy(alloc)?)?;
                Ok(Pred::And(p, q))
            }
            Pred::Or(p, q) => {
                let p = Boxed::new(alloc, p.get().copy(alloc)?)?;
                let q = Boxed::new(alloc, q.get().copy(alloc)?)?;
                Ok(Pred::Or(p, q))
            }
        }
    }
}

impl Copied for Pred {
    fn copied(&self, alloc: Global) -> Result<Pred, NoMemory> {
        self.copy(alloc)
    }
}
