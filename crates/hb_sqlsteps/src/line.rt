// A line, token by token.
ghost use Rattle.std.specs.Prelude.{◌≡◌, IfOk, Some};
ghost use Rattle.hb_sqlsteps.specs.LineSteps.{line_word, start_line, step_stop, step_line, whole_stop, given, in_work, whole_line};
ghost use Rattle.hb_sqlsteps.specs.declared.line.Line.TheVariants as line;

use crate::marks::{Mark, is_mark, is_word, name_of, number_of, on_mark, on_word};
use crate::position::Position;
use hb_model::Item;
use hb_sqltoken::{Token, Word};
use hb_types::{NoMemory, Text};
use sqlite_items::Boxed;
use std::alloc::Global;

/// The most that STEP and AT may say.
const MOST_STEPS: u32 = 2147483647;

/// Behind STOP, the node's name, AREA, AT.
#[derive(Drop)]
pub enum Stop {
    Start,
    Named(Text),
    Area(Text),
    At(Text, bool),
}

/// How far a line has come.
#[derive(Drop)]
pub enum Line {
    Start,
    /// Behind GIVE.
    Give,
    /// Behind the session's name, which may be behind GIVE.
    Named(Text, bool),
    /// In what is given to the session.
    Work(Text, bool, Position),
    /// Behind STEP.
    Step,
    StepOf(Text),
    Stop(Stop),
    /// Behind START.
    Up,
    Sync,
    /// Behind the last token that may come.
    Ended(Boxed<Item>),
}

fn ended(alloc: Global, item: Item) -> Result<Option<Line>, NoMemory>
    ensures { IfOk result (λ l. l ≡ Some (line.Ended item)) }
{
    Ok(Some(Line::Ended(Boxed::new(alloc, item)?)))
}

fn on_word_of_line(alloc: Global, word: Word) -> Result<Option<Line>, NoMemory>
    ensures { IfOk result (λ l. l ≡ line_word word) }
{
    match word {
        Word::Give => Ok(Some(Line::Give)),
        Word::Step => Ok(Some(Line::Step)),
        Word::Stop => Ok(Some(Line::Stop(Stop::Start))),
        Word::Start => Ok(Some(Line::Up)),
        Word::Sync => Ok(Some(Line::Sync)),
        Word::Barrier => ended(alloc, Item::Barrier),
        _ => Ok(None),
    }
}

fn on_start(alloc: Global, token: Token) -> Result<Option<Line>, NoMemory>
    ensures { IfOk result (λ l. l ≡ start_line token) }
{
    match token {
        Token::Name(session) => Ok(Some(Line::Named(session, false))),
        Token::Word(word) => on_word_of_line(alloc, word),
        _ => Ok(None),
    }
}

impl Stop {
    fn step(self, alloc: Global, token: Token) -> Result<Option<Line>, NoMemory>
        ensures { IfOk result (λ l. l ≡ step_stop self token) }
    {
        match self {
            Stop::Start => match name_of(token) {
                Some(node) => Ok(Some(Line::Stop(Stop::Named(node)))),
                None => Ok(None),
            },
            Stop::Named(node) => {
                if is_word(Word::Area, &token) {
                    Ok(Some(Line::Stop(Stop::Area(node))))
                } else {
                    Ok(on_word(Word::At, &token, Line::Stop(Stop::At(node, false))))
                }
            }
            Stop::Area(node) => {
                let next = Line::Stop(Stop::At(node, true));
                Ok(on_word(Word::At, &token, next))
            }
            Stop::At(node, area) => match number_of(MOST_STEPS, &token) {
                Some(k) => ended(alloc, Item::Arm { node, area, k }),
                None => Ok(None),
            },
        }
    }

    fn finish(self, alloc: Global) -> Result<Option<Boxed<Item>>, NoMemory>
        ensures { IfOk result (λ i. i ≡ whole_stop self) }
    {
        match self {
            Stop::Named(node) => Ok(Some(Boxed::new(alloc, Item::Stop { node })?)),
            _ => Ok(None),
        }
    }
}

/// What is given, where it is whole.
fn given(
    alloc: Global,
    session: Text,
    held: bool,
    position: Position,
) -> Result<Option<Boxed<Item>>, NoMemory>
    ensures { IfOk result (λ i. i ≡ given session held position) }
{
    match position.finish(alloc)? {
        Some(work) => {
            let work = work.into_inner();
            let item = Item::Give {
                session,
                work,
                held,
            };
            Ok(Some(Boxed::new(alloc, item)?))
        }
        None => Ok(None),
    }
}

fn in_work(
    alloc: Global,
    session: Text,
    held: bool,
    position: Position,
    token: Token,
) -> Result<Option<Line>, NoMemory>
    ensures { IfOk result (λ l. l ≡ in_work session held position token) }
{
    if is_mark(Mark::Semicolon, &token) {
        match given(alloc, session, held, position)? {
            Some(item) => Ok(Some(Line::Ended(item))),
            None => Ok(None),
        }
    } else {
        match position.step(alloc, token)? {
            Some(position) => Ok(Some(Line::Work(session, held, position))),
            None => Ok(None),
        }
    }
}

impl Line {
    /// Takes the next token. None where no line goes on with it.
    pub fn step(self, alloc: Global, token: Token) -> Result<Option<Line>, NoMemory>
        ensures { IfOk result (λ l. l ≡ step_line self token) }
    {
        match self {
            Line::Start => on_start(alloc, token),
            Line::Give => match name_of(token) {
                Some(session) => Ok(Some(Line::Named(session, true))),
                None => Ok(None),
            },
            Line::Named(session, held) => {
                let next = Line::Work(session, held, Position::Start);
                Ok(on_mark(Mark::Colon, &token, next))
            }
            Line::Work(session, held, position) => in_work(alloc, session, held, position, token),
            Line::Step => match name_of(token) {
                Some(session) => Ok(Some(Line::StepOf(session))),
                None => Ok(None),
            },
            Line::StepOf(session) => match number_of(MOST_STEPS, &token) {
                Some(most) => ended(alloc, Item::Step { session, most }),
                None => Ok(None),
            },
            Line::Stop(stop) => stop.step(alloc, token),
            Line::Up => match name_of(token) {
                Some(node) => ended(alloc, Item::Start { node }),
                None => Ok(None),
            },
            Line::Sync => match name_of(token) {
                Some(node) => ended(alloc, Item::Sync { node }),
                None => Ok(None),
            },
            Line::Ended(_) => Ok(None),
        }
    }

    /// What the tokens so far say, where they are a line.
    pub fn finish(self, alloc: Global) -> Result<Option<Boxed<Item>>, NoMemory>
        ensures { IfOk result (λ i. i ≡ whole_line self) }
    {
        match self {
            Line::Work(session, held, position) => given(alloc, session, held, position),
            Line::Stop(stop) => stop.finish(alloc),
            Line::Ended(item) => Ok(Some(item)),
            _ => Ok(None),
        }
    }
}
