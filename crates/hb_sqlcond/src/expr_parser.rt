// An expression, token by token.
ghost use Rattle.std.specs.Prelude.{◌≡◌, IfOk, []};
ghost use Rattle.hb_sqlcond.specs.ExprSteps.{start_expr, parser_of, to, want, behind_sum, have, offer, step_expr, whole_expr};
ghost use Rattle.hb_sqlcond.specs.declared.operand.ExprState.TheVariants as state;
ghost use Rattle.hb_sqlcond.specs.declared.operand.Sum.TheVariants as sum;

use crate::operand::{ExprState, Operand, Sum};
use crate::stack::Stack;
use hb_model::Expr;
use hb_sqltoken::Token;
use hb_types::NoMemory;
use sqlite_items::Boxed;
use std::alloc::Global;

/// An expression as far as it has come: what stands before each open parenthesis, and the innermost expression.
#[derive(Drop)]
pub struct ExprParser {
    inner: Stack<Operand>,
    state: ExprState,
}

/// What became of a token that was offered.
#[derive(Drop)]
pub enum Offer {
    Taken(ExprParser),
    /// The expression ends before the token.
    Ended(Boxed<Expr>, Token),
    Refused,
}

fn to(inner: Stack<Operand>, state: ExprState) -> Offer
    ensures { result ≡ to inner state }
{
    Offer::Taken(ExprParser { inner, state })
}

/// Takes a token where a factor is wanted.
fn on_want(
    alloc: Global,
    inner: Stack<Operand>,
    operand: Operand,
    token: Token,
) -> Result<Offer, NoMemory>
    ensures { IfOk result (λ o. o ≡ want inner operand token) }
{
    match token {
        Token::Number(n) => Ok(to(inner, operand.with_number(alloc, n)?)),
        Token::Text(t) => {
            let value = Boxed::new(alloc, Expr::Text(t))?;
            Ok(to(inner, operand.with_factor(alloc, value)?))
        }
        Token::Name(t) => {
            let value = Boxed::new(alloc, Expr::Name(t))?;
            Ok(to(inner, operand.with_factor(alloc, value)?))
        }
        Token::Open => {
            let mut inner = inner;
            inner.push(operand)?;
            Ok(to(inner, ExprState::Want(Operand::bare())))
        }
        Token::Minus => Ok(to(inner, ExprState::Want(operand.with_minus()?))),
        _ => Ok(Offer::Refused),
    }
}

/// Takes a token behind a sum.
fn behind_sum(
    alloc: Global,
    inner: Stack<Operand>,
    value: Boxed<Expr>,
    token: Token,
) -> Result<Offer, NoMemory>
    ensures { IfOk result (λ o. o ≡ behind_sum inner value token) }
{
    let mut inner = inner;
    match inner.pop() {
        None => Ok(Offer::Ended(value, token)),
        Some(operand) => match token {
            Token::Close => Ok(to(inner, operand.with_factor(alloc, value)?)),
            _ => Ok(Offer::Refused),
        },
    }
}

/// Takes a token behind a product.
fn on_have(
    alloc: Global,
    inner: Stack<Operand>,
    sum: Sum,
    value: Boxed<Expr>,
    token: Token,
) -> Result<Offer, NoMemory>
    ensures { IfOk result (λ o. o ≡ have inner sum value token) }
{
    match token {
        Token::Star => {
            let operand = Operand {
                sum,
                product: Some(value),
                minuses: 0,
            };
            Ok(to(inner, ExprState::Want(operand)))
        }
        Token::Plus => {
            let operand = Operand {
                sum: Sum::Plus(sum.with(alloc, value)?),
                product: None,
                minuses: 0,
            };
            Ok(to(inner, ExprState::Want(operand)))
        }
        Token::Minus => {
            let operand = Operand {
                sum: Sum::Minus(sum.with(alloc, value)?),
                product: None,
                minuses: 0,
            };
            Ok(to(inner, ExprState::Want(operand)))
        }
        token => {
            let value = sum.with(alloc, value)?;
            behind_sum(alloc, inner, value, token)
        }
    }
}

impl ExprParser {
    /// Before the first token.
    pub fn start(alloc: Global) -> ExprParser
        ensures { result ≡ start_expr }
    {
        ExprParser {
            inner: Stack::new(alloc),
            state: ExprState::Want(Operand::bare()),
        }
    }

    /// Behind an expression in parentheses.
    pub fn behind(alloc: Global, value: Boxed<Expr>) -> ExprParser
        ensures { result ≡ parser_of [] (state.Have sum.Nothing value) }
    {
        ExprParser {
            inner: Stack::new(alloc),
            state: ExprState::Have(Sum::Nothing, value),
        }
    }

    pub fn offer(self, alloc: Global, token: Token) -> Result<Offer, NoMemory>
        ensures { IfOk result (λ o. o ≡ offer self token) }
    {
        let ExprParser { inner, state } = self;
        match state {
            ExprState::Want(operand) => on_want(alloc, inner, operand, token),
            ExprState::Have(sum, value) => on_have(alloc, inner, sum, value, token),
        }
    }

    /// Takes the next token. None where no expression goes on with it.
    pub fn step(self, alloc: Global, token: Token) -> Result<Option<ExprParser>, NoMemory>
        ensures { IfOk result (λ p. p ≡ step_expr self token) }
    {
        match self.offer(alloc, token)? {
            Offer::Taken(parser) => Ok(Some(parser)),
            Offer::Ended(_, _) => Ok(None),
            Offer::Refused => Ok(None),
        }
    }

    /// The expression of the tokens so far, where they are one.
    pub fn finish(self, alloc: Global) -> Result<Option<Boxed<Expr>>, NoMemory>
        ensures { IfOk result (λ e. e ≡ whole_expr self) }
    {
        let ExprParser { mut inner, state } = self;
        match inner.pop() {
            Some(_) => Ok(None),
            None => match state {
                ExprState::Want(_) => Ok(None),
                ExprState::Have(sum, value) => Ok(Some(sum.with(alloc, value)?)),
            },
        }
    }
}
