// What stands before a factor, and the trees that are made with it.
ghost use Rattle.std.specs.Prelude.{◌≡◌, IfOk, suc};
ghost use Rattle.hb_sqlcond.specs.Operands.{operand_of, bare, minuses_of, times_of, summed, number_of, factor};
ghost use Rattle.hb_sqlcond.specs.declared.operand.ExprState.TheVariants as state;

use hb_model::Expr;
use hb_types::NoMemory;
use sqlite_items::Boxed;
use std::alloc::Global;

/// What a term is added to.
#[derive(Drop)]
pub enum Sum {
    Nothing,
    Plus(Boxed<Expr>),
    Minus(Boxed<Expr>),
}

/// What stands before a factor.
#[derive(Drop)]
pub struct Operand {
    pub sum: Sum,
    pub product: Option<Boxed<Expr>>,
    pub minuses: u32,
}

/// How far the innermost expression has come.
#[derive(Drop)]
pub enum ExprState {
    /// A factor is wanted.
    Want(Operand),
    /// A product is there.
    Have(Sum, Boxed<Expr>),
}

fn negated(alloc: Global, count: u32, value: Boxed<Expr>) -> Result<Boxed<Expr>, NoMemory>
    ensures { IfOk result (λ e. e ≡ minuses_of count value) }
{
    let mut left = count;
    let mut value = value;
    while left > 0 {
        left -= 1;
        value = Boxed::new(alloc, Expr::Neg(value))?;
    }
    Ok(value)
}

fn product_of(
    alloc: Global,
    product: Option<Boxed<Expr>>,
    value: Boxed<Expr>,
) -> Result<Boxed<Expr>, NoMemory>
    ensures { IfOk result (λ e. e ≡ times_of product value) }
{
    match product {
        Some(first) => Ok(Boxed::new(alloc, Expr::Mul(first, value))?),
        None => Ok(value),
    }
}

/// The product with a number behind minuses, the last of which belongs to the number.
fn number_after(
    alloc: Global,
    product: Option<Boxed<Expr>>,
    minuses: u32,
    n: u64,
) -> Result<Boxed<Expr>, NoMemory>
    ensures { IfOk result (λ e. e ≡ number_of product minuses n) }
{
    if minuses == 0 {
        let value = Boxed::new(alloc, Expr::Int(n as i128))?;
        return product_of(alloc, product, value);
    }
    let value = Boxed::new(alloc, Expr::Int(0 - n as i128))?;
    let value = negated(alloc, minuses - 1, value)?;
    product_of(alloc, product, value)
}

impl Sum {
    pub fn with(self, alloc: Global, value: Boxed<Expr>) -> Result<Boxed<Expr>, NoMemory>
        ensures { IfOk result (λ e. e ≡ summed self value) }
    {
        match self {
            Sum::Nothing => Ok(value),
            Sum::Plus(first) => Ok(Boxed::new(alloc, Expr::Add(first, value))?),
            Sum::Minus(first) => Ok(Boxed::new(alloc, Expr::Sub(first, value))?),
        }
    }
}

impl Operand {
    pub fn bare() -> Operand
        ensures { result ≡ bare }
    {
        Operand {
            sum: Sum::Nothing,
            product: None,
            minuses: 0,
        }
    }

    pub fn with_factor(self, alloc: Global, value: Boxed<Expr>) -> Result<ExprState, NoMemory>
        ensures { IfOk result (λ s. s ≡ state.Have self.sum (factor self value)) }
    {
        let Operand {
            sum,
            product,
            minuses,
        } = self;
        let value = negated(alloc, minuses, value)?;
        let value = product_of(alloc, product, value)?;
        Ok(ExprState::Have(sum, value))
    }

    pub fn with_number(self, alloc: Global, n: u64) -> Result<ExprState, NoMemory>
        ensures { IfOk result (λ s. s ≡ state.Have self.sum (number_of self.product self.minuses n)) }
    {
        let Operand {
            sum,
            product,
            minuses,
        } = self;
        let value = number_after(alloc, product, minuses, n)?;
        Ok(ExprState::Have(sum, value))
    }

    /// With one minus more. More than a `u32` counts are want of memory.
    pub fn with_minus(self) -> Result<Operand, NoMemory>
        ensures { IfOk result (λ o. o ≡ operand_of self.sum self.product (suc self.minuses)) }
    {
        let Operand {
            sum,
            product,
            minuses,
        } = self;
        if minuses == u32::MAX {
            return Err(NoMemory);
        }
        Ok(Operand {
            sum,
            product,
            minuses: minuses + 1,
        })
    }
}
