// A statement, token by token.
ghost use Rattle.std.specs.Prelude.{◌≡◌, IfOk, None, Some};
ghost use Rattle.hb_sqlsteps.specs.Positions.{with_pred, first_word, start_work, step_create, step_where, step_position, whole_where, whole_update, whole_updating, whole_position};

use crate::create_table::CreateTable;
use crate::definitions::{AddArea, CreateArea, LockTable, whole};
use crate::marks::{is_word, on_word};
use crate::position::{Filtered, Position};
use crate::rebalance::{Options, Rebalance};
use crate::rows::{Delete, Insert, Update};
use crate::select::Select;
use crate::sets::Sets;
use hb_model::{Statement, Work};
use hb_sqlcond::PredParser;
use hb_sqltoken::{Token, Word};
use hb_types::{NoMemory, Text};
use sqlite_items::Boxed;
use std::alloc::Global;

fn first_word(alloc: Global, word: Word) -> Result<Option<Position>, NoMemory>
    ensures { IfOk result (λ p. p ≡ first_word word) }
{
    match word {
        Word::Create => Ok(Some(Position::Create)),
        Word::Alter => Ok(Some(Position::AddArea(AddArea::Start))),
        Word::Lock => Ok(Some(Position::LockTable(LockTable::Start))),
        Word::Insert => Ok(Some(Position::Insert(Insert::Start))),
        Word::Select => Ok(Some(Position::Select(Select::Start))),
        Word::Update => Ok(Some(Position::Update(Update::Start))),
        Word::Delete => Ok(Some(Position::Delete(Delete::Start))),
        Word::Commit => whole(alloc, Work::Sql(Statement::Commit)),
        Word::Rollback => whole(alloc, Work::Sql(Statement::Rollback)),
        Word::Pdrbal => {
            let next = Rebalance::Options(Options::Start);
            Ok(Some(Position::Rebalance(next)))
        }
        _ => Ok(None),
    }
}

fn on_start(alloc: Global, token: &Token) -> Result<Option<Position>, NoMemory>
    ensures { IfOk result (λ p. p ≡ start_work token.now) }
{
    match token {
        Token::Word(word) => first_word(alloc, *word),
        _ => Ok(None),
    }
}

fn on_create(token: &Token) -> Option<Position>
    ensures { result ≡ step_create token.now }
{
    if is_word(Word::Rdarea, token) {
        Some(Position::CreateArea(CreateArea::Start))
    } else if is_word(Word::Table, token) {
        Some(Position::CreateTable(CreateTable::Start))
    } else {
        None
    }
}

fn on_where(
    alloc: Global,
    filtered: Filtered,
    parser: PredParser,
    token: Token,
) -> Result<Option<Position>, NoMemory>
    ensures { IfOk result (λ p. p ≡ step_where filtered parser token) }
{
    match parser.step(alloc, token)? {
        Some(parser) => Ok(Some(Position::Where(filtered, parser))),
        None => Ok(None),
    }
}

fn whole_where(
    alloc: Global,
    filtered: Filtered,
    parser: PredParser,
) -> Result<Option<Boxed<Work>>, NoMemory>
    ensures { IfOk result (λ w. w ≡ whole_where filtered parser) }
{
    match parser.finish(alloc)? {
        Some(pred) => {
            let work = filtered.with_pred(Some(pred));
            Ok(Some(Boxed::new(alloc, work)?))
        }
        None => Ok(None),
    }
}

fn whole_update(alloc: Global, table: Text, sets: Sets) -> Result<Option<Boxed<Work>>, NoMemory>
    ensures { IfOk result (λ w. w ≡ whole_update table sets) }
{
    match sets.finish(alloc)? {
        Some(sets) => {
            let work = Filtered::Update { table, sets }.with_pred(None);
            Ok(Some(Boxed::new(alloc, work)?))
        }
        None => Ok(None),
    }
}

fn whole_updating(alloc: Global, place: Update) -> Result<Option<Boxed<Work>>, NoMemory>
    ensures { IfOk result (λ w. w ≡ whole_updating place) }
{
    match place {
        Update::Sets(table, sets) => whole_update(alloc, table, sets),
        _ => Ok(None),
    }
}

impl Position {
    /// Takes the next token. None where no statement goes on with it.
    pub(crate) fn step(self, alloc: Global, token: Token) -> Result<Option<Position>, NoMemory>
        ensures { IfOk result (λ p. p ≡ step_position self token) }
    {
        match self {
            Position::Start => on_start(alloc, &token),
            Position::Create => Ok(on_create(&token)),
            Position::CreateArea(place) => place.step(alloc, token),
            Position::CreateTable(place) => place.step(alloc, token),
            Position::AddArea(place) => place.step(alloc, token),
            Position::LockTable(place) => place.step(alloc, token),
            Position::Insert(place) => place.step(alloc, token),
            Position::Select(place) => place.step(alloc, token),
            Position::Update(place) => place.step(alloc, token),
            Position::Delete(place) => Ok(place.step(token)),
            Position::Rebalance(place) => place.step(alloc, token),
            Position::Unfiltered(filtered) => {
                let next = Position::Where(filtered, PredParser::start(alloc));
                Ok(on_word(Word::Where, &token, next))
            }
            Position::Where(filtered, parser) => on_where(alloc, filtered, parser, token),
            Position::Whole(_) => Ok(None),
        }
    }

    /// The work of the tokens so far, where they are one.
    pub(crate) fn finish(self, alloc: Global) -> Result<Option<Boxed<Work>>, NoMemory>
        ensures { IfOk result (λ w. w ≡ whole_position self) }
    {
        match self {
            Position::Whole(work) => Ok(Some(work)),
            Position::Unfiltered(filtered) => {
                let work = filtered.with_pred(None);
                Ok(Some(Boxed::new(alloc, work)?))
            }
            Position::Where(filtered, parser) => whole_where(alloc, filtered, parser),
            Position::Update(place) => whole_updating(alloc, place),
            _ => Ok(None),
        }
    }
}
