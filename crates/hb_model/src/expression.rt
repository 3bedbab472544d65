// Values that are computed from a row.
ghost use Rattle.std.specs.Prelude.{◌≡◌, IfOk};

use hb_types::{Copied, NoMemory};
use sqlite_items::Boxed;
use std::alloc::Global;

/// A value that is computed from a row.
#[derive(Drop)]
pub enum Expr {
    Int(i128),
    Text(hb_types::Text),
    Name(hb_types::Text),
    Neg(Boxed<Expr>),
    Add(Boxed<Expr>, Boxed<Expr>),
    Sub(Boxed<Expr>, Boxed<Expr>),
    Mul(Boxed<Expr>, Boxed<Expr>),
}

impl Expr {
    pub fn copy(&self, alloc: Global) -> Result<Expr, NoMemory>
        ensures { IfOk result (λ c. c ≡ self.now) }
    {
        match self {
            Expr::Int(n) => Ok(Expr::Int(*n)),
            Expr::Text(t) => Ok(Expr::Text(t.copy(alloc)?)),
            Expr::Name(t) => Ok(Expr::Name(t.copy(alloc)?)),
            Expr::Neg(a) => Ok(Expr::Neg(Boxed::new(alloc, a.get().copy(alloc)?)?)),
            Expr::Add(a, b) => {
                let a = Boxed::new(alloc, a.get().copy(alloc)?)?;
                let b = Boxed::new(alloc, b.get().copy(alloc)?)?;
                Ok(Expr::Add(a, b))
            }
            Expr::Sub(a, b) => {
                let a = Boxed::new(alloc, a.get().copy(alloc)?)?;
                let b = Boxed::new(alloc, b.get().copy(alloc)?)?;
                Ok(Expr::Sub(a, b))
            }
            Expr::Mul(a, b) => {
                let a = Boxed::new(alloc, a.get().copy(alloc)?)?;
                let b = Boxed::new(alloc, b.get().copy(alloc)?)?;
                Ok(Expr::Mul(a, b))
            }
        }
    }
}

impl Copied for Expr {
    fn copied(&self, alloc: Global) -> Result<Expr, NoMemory> {
        self.copy(alloc)
    }
}
