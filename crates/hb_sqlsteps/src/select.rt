// What a SELECT shows, and its table, token by token.
ghost use Rattle.std.specs.Prelude.{◌≡◌, IfOk};
ghost use Rattle.hb_sqlsteps.specs.RowSteps.{start_select, in_shown, step_select};

use crate::lists::Names;
use crate::marks::{Mark, is_mark, is_word, name_of, on_mark, on_word};
use crate::position::{Filtered, Position};
use hb_model::What;
use hb_sqltoken::{Token, Word};
use hb_types::{NoMemory, Text};
use std::alloc::Global;

/// Behind SELECT, in names, behind COUNT, its parenthesis, its star, SUM, its parenthesis, its name, what is shown, FROM.
#[derive(Drop)]
pub enum Select {
    Start,
    Names(Names),
    Count,
    CountOpen,
    CountStar,
    Sum,
    SumOpen,
    SumNamed(Text),
    Shown(What),
    From(What),
}

fn on_start(alloc: Global, token: Token) -> Result<Option<Position>, NoMemory>
    ensures { IfOk result (λ p. p ≡ start_select token) }
{
    if is_mark(Mark::Star, &token) {
        Ok(Some(Position::Select(Select::Shown(What::All))))
    } else if is_word(Word::Count, &token) {
        Ok(Some(Position::Select(Select::Count)))
    } else if is_word(Word::Sum, &token) {
        Ok(Some(Position::Select(Select::Sum)))
    } else {
        match Names::start(alloc).step(token)? {
            Some(names) => Ok(Some(Position::Select(Select::Names(names)))),
            None => Ok(None),
        }
    }
}

fn in_shown(names: Names, token: Token) -> Result<Option<Position>, NoMemory>
    ensures { IfOk result (λ p. p ≡ in_shown names token) }
{
    if is_word(Word::From, &token) {
        match names.finish() {
            Some(names) => Ok(Some(Position::Select(Select::From(What::Names(names))))),
            None => Ok(None),
        }
    } else {
        match names.step(token)? {
            Some(names) => Ok(Some(Position::Select(Select::Names(names)))),
            None => Ok(None),
        }
    }
}

impl Select {
    pub(crate) fn step(self, alloc: Global, token: Token) -> Result<Option<Position>, NoMemory>
        ensures { IfOk result (λ p. p ≡ step_select self token) }
    {
        match self {
            Select::Start => on_start(alloc, token),
            Select::Names(names) => in_shown(names, token),
            Select::Count => {
                let next = Position::Select(Select::CountOpen);
                Ok(on_mark(Mark::Open, &token, next))
            }
            Select::CountOpen => {
                let next = Position::Select(Select::CountStar);
                Ok(on_mark(Mark::Star, &token, next))
            }
            Select::CountStar => {
                let next = Position::Select(Select::Shown(What::Count));
                Ok(on_mark(Mark::Close, &token, next))
            }
            Select::Sum => {
                let next = Position::Select(Select::SumOpen);
                Ok(on_mark(Mark::Open, &token, next))
            }
            Select::SumOpen => match name_of(token) {
                Some(name) => Ok(Some(Position::Select(Select::SumNamed(name)))),
                None => Ok(None),
            },
            Select::SumNamed(name) => {
                let next = Position::Select(Select::Shown(What::Sum(name)));
                Ok(on_mark(Mark::Close, &token, next))
            }
            Select::Shown(shown) => {
                let next = Position::Select(Select::From(shown));
                Ok(on_word(Word::From, &token, next))
            }
            Select::From(shown) => match name_of(token) {
                Some(table) => {
                    let select = Filtered::Select { shown, table };
                    Ok(Some(Position::Unfiltered(select)))
                }
                None => Ok(None),
            },
        }
    }
}
