// A condition, token by token.
ghost use Rattle.std.specs.Prelude.{◌≡◌, IfOk};
ghost use Rattle.hb_sqlcond.specs.PredSteps.{start_pred, close_test, joined, behind_test, close_value, behind_left, on_left, on_right, want_test, step_pred, whole_pred};

use crate::expr_parser::{ExprParser, Offer};
use crate::prefix::{Prefix, both_of, compared, denied, joined};
use crate::stack::Stack;
use hb_model::{Expr, Op, Pred};
use hb_sqltoken::{Token, Word};
use hb_types::NoMemory;
use sqlite_items::Boxed;
use std::alloc::Global;

/// How far the innermost condition has come.
#[derive(Drop)]
pub enum Mode {
    /// A test is wanted.
    WantTest(Prefix),
    /// The left side of a comparison.
    Left(Prefix, ExprParser),
    /// The right side of a comparison, behind its operator and its left side.
    Right(Prefix, Op, Boxed<Expr>, ExprParser),
    /// A test is there: the condition up to the last OR, that up to the last AND, and the test.
    Tested(Option<Boxed<Pred>>, Option<Boxed<Pred>>, Boxed<Pred>),
}

/// A condition as far as it has come. What stands before each open parenthesis that may open a condition or an
/// expression is in `outer`.
#[derive(Drop)]
pub struct PredParser {
    outer: Stack<Prefix>,
    mode: Mode,
}

/// Closes a condition in parentheses.
fn close_test(
    alloc: Global,
    outer: Stack<Prefix>,
    pred: Boxed<Pred>,
) -> Result<Option<PredParser>, NoMemory>
    ensures { IfOk result (λ p. p ≡ close_test outer pred) }
{
    let mut outer = outer;
    let prefix = match outer.pop() {
        Some(prefix) => prefix,
        None => return Ok(None),
    };
    let Prefix { ors, ands, nots } = prefix;
    let pred = denied(alloc, nots, pred)?;
    Ok(Some(PredParser {
        outer,
        mode: Mode::Tested(ors, ands, pred),
    }))
}

/// Takes a word behind a test.
fn on_word(
    alloc: Global,
    outer: Stack<Prefix>,
    ors: Option<Boxed<Pred>>,
    ands: Option<Boxed<Pred>>,
    pred: Boxed<Pred>,
    word: Word,
) -> Result<Option<PredParser>, NoMemory>
    ensures { IfOk result (λ p. p ≡ joined outer ors ands pred word) }
{
    match word {
        Word::And => {
            let ands = Some(both_of(alloc, ands, pred)?);
            Ok(Some(PredParser {
                outer,
                mode: Mode::WantTest(Prefix { ors, ands, nots: 0 }),
            }))
        }
        Word::Or => {
            let ors = Some(joined(alloc, ors, ands, pred)?);
            Ok(Some(PredParser {
                outer,
                mode: Mode::WantTest(Prefix {
                    ors,
                    ands: None,
                    nots: 0,
                }),
            }))
        }
        _ => Ok(None),
    }
}

/// Takes a token behind a test.
fn behind_test(
    alloc: Global,
    outer: Stack<Prefix>,
    ors: Option<Boxed<Pred>>,
    ands: Option<Boxed<Pred>>,
    pred: Boxed<Pred>,
    token: Token,
) -> Result<Option<PredParser>, NoMemory>
    ensures { IfOk result (λ p. p ≡ behind_test outer ors ands pred token) }
{
    match token {
        Token::Word(word) => on_word(alloc, outer, ors, ands, pred, word),
        Token::Close => {
            let pred = joined(alloc, ors, ands, pred)?;
            close_test(alloc, outer, pred)
        }
        _ => Ok(None),
    }
}

/// An expression in parentheses that might have opened a condition is whole.
fn close_value(alloc: Global, outer: Stack<Prefix>, value: Boxed<Expr>) -> Option<PredParser>
    ensures { result ≡ close_value outer value }
{
    let mut outer = outer;
    let prefix = outer.pop()?;
    Some(PredParser {
        outer,
        mode: Mode::Left(prefix, ExprParser::behind(alloc, value)),
    })
}

/// Takes a token behind the left side of a comparison.
fn behind_left(
    alloc: Global,
    outer: Stack<Prefix>,
    prefix: Prefix,
    value: Boxed<Expr>,
    token: Token,
) -> Option<PredParser>
    ensures { result ≡ behind_left outer prefix value token }
{
    match token {
        Token::Compare(op) => Some(PredParser {
            outer,
            mode: Mode::Right(prefix, op, value, ExprParser::start(alloc)),
        }),
        Token::Close => {
            if prefix.is_fresh() {
                close_value(alloc, outer, value)
            } else {
                None
            }
        }
        _ => None,
    }
}

/// Goes on with what the left side of a comparison made of a token.
fn on_left(alloc: Global, outer: Stack<Prefix>, prefix: Prefix, offer: Offer) -> Option<PredParser>
    ensures { result ≡ on_left outer prefix offer }
{
    match offer {
        Offer::Taken(parser) => Some(PredParser {
            outer,
            mode: Mode::Left(prefix, parser),
        }),
        Offer::Ended(value, token) => behind_left(alloc, outer, prefix, value, token),
        Offer::Refused => None,
    }
}

/// Goes on with what the right side of a comparison made of a token.
fn on_right(
    alloc: Global,
    outer: Stack<Prefix>,
    prefix: Prefix,
    op: Op,
    first: Boxed<Expr>,
    offer: Offer,
) -> Result<Option<PredParser>, NoMemory>
    ensures { IfOk result (λ p. p ≡ on_right outer prefix op first offer) }
{
    match offer {
        Offer::Taken(parser) => Ok(Some(PredParser {
            outer,
            mode: Mode::Right(prefix, op, first, parser),
        })),
        Offer::Ended(value, token) => {
            let Prefix { ors, ands, nots } = prefix;
            let pred = compared(alloc, nots, op, first, value)?;
            behind_test(alloc, outer, ors, ands, pred, token)
        }
        Offer::Refused => Ok(None),
    }
}

/// Takes a token where a test is wanted.
fn on_want_test(
    alloc: Global,
    outer: Stack<Prefix>,
    prefix: Prefix,
    token: Token,
) -> Result<Option<PredParser>, NoMemory>
    ensures { IfOk result (λ p. p ≡ want_test outer prefix token) }
{
    match token {
        Token::Word(word) => match word {
            Word::Not => Ok(Some(PredParser {
                outer,
                mode: Mode::WantTest(prefix.with_not()?),
            })),
            _ => Ok(None),
        },
        Token::Open => {
            let mut outer = outer;
            outer.push(prefix)?;
            Ok(Some(PredParser {
                outer,
                mode: Mode::WantTest(Prefix::fresh()),
            }))
        }
        token => {
            let offer = ExprParser::start(alloc).offer(alloc, token)?;
            Ok(on_left(alloc, outer, prefix, offer))
        }
    }
}

impl PredParser {
    /// Before the first token.
    pub fn start(alloc: Global) -> PredParser
        ensures { result ≡ start_pred }
    {
        PredParser {
            outer: Stack::new(alloc),
            mode: Mode::WantTest(Prefix::fresh()),
        }
    }

    /// Takes the next token. None where no condition goes on with it.
    pub fn step(self, alloc: Global, token: Token) -> Result<Option<PredParser>, NoMemory>
        ensures { IfOk result (λ p. p ≡ step_pred self token) }
    {
        let PredParser { outer, mode } = self;
        match mode {
            Mode::WantTest(prefix) => on_want_test(alloc, outer, prefix, token),
            Mode::Left(prefix, parser) => {
                let offer = parser.offer(alloc, token)?;
                Ok(on_left(alloc, outer, prefix, offer))
            }
            Mode::Right(prefix, op, first, parser) => {
                let offer = parser.offer(alloc, token)?;
                on_right(alloc, outer, prefix, op, first, offer)
            }
            Mode::Tested(ors, ands, pred) => behind_test(alloc, outer, ors, ands, pred, token),
        }
    }

    /// The condition of the tokens so far, where they are one.
    pub fn finish(self, alloc: Global) -> Result<Option<Boxed<Pred>>, NoMemory>
        ensures { IfOk result (λ p. p ≡ whole_pred self) }
    {
        let PredParser { mut outer, mode } = self;
        match outer.pop() {
            Some(_) => Ok(None),
            None => match mode {
                Mode::Tested(ors, ands, pred) => Ok(Some(joined(alloc, ors, ands, pred)?)),
                Mode::Right(prefix, op, first, parser) => match parser.finish(alloc)? {
                    Some(value) => {
                        let Prefix { ors, ands, nots } = prefix;
                        let pred = compared(alloc, nots, op, first, value)?;
                        Ok(Some(joined(alloc, ors, ands, pred)?))
                    }
                    None => Ok(None),
                },
                Mode::WantTest(_) => Ok(None),
                Mode::Left(_, _) => Ok(None),
            },
        }
    }
}
