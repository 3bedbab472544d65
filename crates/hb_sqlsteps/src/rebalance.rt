// PDRBAL, token by token.
ghost use Rattle.std.specs.Prelude.{◌≡◌, IfOk};
ghost use Rattle.hb_sqlsteps.specs.RebalanceSteps.{step_options, step_limits, step_rebalance};
ghost use Rattle.hb_sqlsteps.specs.declared.position.Position.TheVariants as position;
ghost use Rattle.hb_sqlsteps.specs.declared.rebalance.Rebalance.TheVariants as rebalance;

use crate::definitions::whole;
use crate::marks::{Mark, name_of, number_of, on_letter, on_mark, on_word};
use crate::position::Position;
use hb_model::Work;
use hb_sqltoken::{Token, Word};
use hb_types::{NoMemory, Text};
use std::alloc::Global;

/// The most rows of a turn.
const MOST_ROWS: u32 = 10000;

/// The most turns.
const MOST_TURNS: u32 = 1000000;

/// Up to the table's name: behind PDRBAL, its minus, k, SHARE, its minus, t.
#[derive(Drop)]
pub enum Options {
    Start,
    KeepMinus,
    Keep,
    Share,
    TableMinus,
    Table,
}

/// Behind the table's name, its minus, c, the rows of a turn, its minus, n.
#[derive(Drop)]
pub enum Limits {
    Named,
    RowsMinus,
    Rows,
    Counted(u32),
    TurnsMinus(u32),
    Turns(u32),
}

#[derive(Drop)]
pub enum Rebalance {
    Options(Options),
    Limits(Text, Limits),
}

impl Options {
    fn step(self, token: Token) -> Option<Rebalance>
        ensures { result ≡ step_options self token }
    {
        match self {
            Options::Start => {
                let next = Rebalance::Options(Options::KeepMinus);
                on_mark(Mark::Minus, &token, next)
            }
            Options::KeepMinus => on_letter(b'k', &token, Rebalance::Options(Options::Keep)),
            Options::Keep => on_word(Word::Share, &token, Rebalance::Options(Options::Share)),
            Options::Share => {
                let next = Rebalance::Options(Options::TableMinus);
                on_mark(Mark::Minus, &token, next)
            }
            Options::TableMinus => on_letter(b't', &token, Rebalance::Options(Options::Table)),
            Options::Table => match name_of(token) {
                Some(table) => Some(Rebalance::Limits(table, Limits::Named)),
                None => None,
            },
        }
    }
}

fn go(table: Text, limits: Limits) -> Position
    ensures { result ≡ position.Rebalance (rebalance.Limits table limits) }
{
    Position::Rebalance(Rebalance::Limits(table, limits))
}

impl Limits {
    fn step(self, alloc: Global, table: Text, token: Token) -> Result<Option<Position>, NoMemory>
        ensures { IfOk result (λ p. p ≡ step_limits table self token) }
    {
        match self {
            Limits::Named => Ok(on_mark(Mark::Minus, &token, go(table, Limits::RowsMinus))),
            Limits::RowsMinus => Ok(on_letter(b'c', &token, go(table, Limits::Rows))),
            Limits::Rows => match number_of(MOST_ROWS, &token) {
                Some(rows) => Ok(Some(go(table, Limits::Counted(rows)))),
                None => Ok(None),
            },
            Limits::Counted(rows) => {
                let next = go(table, Limits::TurnsMinus(rows));
                Ok(on_mark(Mark::Minus, &token, next))
            }
            Limits::TurnsMinus(rows) => {
                let next = go(table, Limits::Turns(rows));
                Ok(on_letter(b'n', &token, next))
            }
            Limits::Turns(rows) => match number_of(MOST_TURNS, &token) {
                Some(turns) => whole(alloc, Work::Rebalance { table, rows, turns }),
                None => Ok(None),
            },
        }
    }
}

impl Rebalance {
    pub(crate) fn step(self, alloc: Global, token: Token) -> Result<Option<Position>, NoMemory>
        ensures { IfOk result (λ p. p ≡ step_rebalance self token) }
    {
        match self {
            Rebalance::Options(options) => match options.step(token) {
                Some(next) => Ok(Some(Position::Rebalance(next))),
                None => Ok(None),
            },
            Rebalance::Limits(table, limits) => limits.step(alloc, table, token),
        }
    }
}
