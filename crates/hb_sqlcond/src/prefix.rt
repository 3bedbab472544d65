// What stands before a test, and the conditions that are made with it.
ghost use Rattle.std.specs.Prelude.{◌≡◌, IfOk, suc};
ghost use Rattle.hb_sqlcond.specs.Operands.{prefix_of, fresh, is_fresh, nots_of, and_of, or_of};
ghost use Rattle.hb_sqlcond.specs.PredSteps.{compared};

use hb_model::{Expr, Op, Pred};
use hb_types::NoMemory;
use sqlite_items::Boxed;
use std::alloc::Global;

/// What stands before a test: the condition up to the last OR, that up to the last AND, and the count of NOT.
#[derive(Drop)]
pub struct Prefix {
    pub ors: Option<Boxed<Pred>>,
    pub ands: Option<Boxed<Pred>>,
    pub nots: u32,
}

pub fn denied(alloc: Global, count: u32, pred: Boxed<Pred>) -> Result<Boxed<Pred>, NoMemory>
    ensures { IfOk result (λ p. p ≡ nots_of count pred) }
{
    let mut left = count;
    let mut pred = pred;
    while left > 0 {
        left -= 1;
        pred = Boxed::new(alloc, Pred::Not(pred))?;
    }
    Ok(pred)
}

pub fn both_of(
    alloc: Global,
    ands: Option<Boxed<Pred>>,
    pred: Boxed<Pred>,
) -> Result<Boxed<Pred>, NoMemory>
    ensures { IfOk result (λ p. p ≡ and_of ands pred) }
{
    match ands {
        Some(first) => Ok(Boxed::new(alloc, Pred::And(first, pred))?),
        None => Ok(pred),
    }
}

/// The condition that ends with a test, by what stands before it.
pub fn joined(
    alloc: Global,
    ors: Option<Boxed<Pred>>,
    ands: Option<Boxed<Pred>>,
    pred: Boxed<Pred>,
) -> Result<Boxed<Pred>, NoMemory>
    ensures { IfOk result (λ p. p ≡ or_of ors (and_of ands pred)) }
{
    let pred = both_of(alloc, ands, pred)?;
    match ors {
        Some(first) => Ok(Boxed::new(alloc, Pred::Or(first, pred))?),
        None => Ok(pred),
    }
}

impl Prefix {
    pub fn fresh() -> Prefix
        ensures { result ≡ fresh }
    {
        Prefix {
            ors: None,
            ands: None,
            nots: 0,
        }
    }

    pub fn is_fresh(&self) -> bool
        ensures { result ≡ is_fresh self.now }
    {
        self.ors.is_none() && self.ands.is_none() && self.nots == 0
    }

    /// With one NOT more. More than a `u32` counts are want of memory.
    pub fn with_not(self) -> Result<Prefix, NoMemory>
        ensures { IfOk result (λ p. p ≡ prefix_of self.ors self.ands (suc self.nots)) }
    {
        let Prefix { ors, ands, nots } = self;
        if nots == u32::MAX {
            return Err(NoMemory);
        }
        Ok(Prefix {
            ors,
            ands,
            nots: nots + 1,
        })
    }
}

/// A comparison behind NOTs.
pub fn compared(
    alloc: Global,
    nots: u32,
    op: Op,
    first: Boxed<Expr>,
    value: Boxed<Expr>,
) -> Result<Boxed<Pred>, NoMemory>
    ensures { IfOk result (λ p. p ≡ compared nots op first value) }
{
    let pred = Boxed::new(
        alloc,
        Pred::Test(op, first.into_inner(), value.into_inner()),
    )?;
    denied(alloc, nots, pred)
}
