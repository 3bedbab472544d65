// The assignments of an UPDATE, token by token.
ghost use Rattle.std.specs.Prelude.{◌≡◌, IfOk, Some, [], ◌∷◌, ◌++◌};
ghost use Rattle.std.specs.Option.{option_map};
ghost use Rattle.hb_sqlsteps.specs.Kept.{set_of};
ghost use Rattle.hb_sqlsteps.specs.SetSteps.{with_whole, step_value, step_sets, whole_sets};
ghost use Rattle.hb_sqlsteps.specs.declared.sets.Sets.TheVariants as sets_at;

use crate::marks::{Mark, is_mark, name_of};
use hb_model::{Expr, Set};
use hb_sqlcond::ExprParser;
use hb_sqltoken::Token;
use hb_types::{NoMemory, Text};
use sqlite_items::{Boxed, Items};
use std::alloc::Global;

/// Assignments, as far as they have come.
#[derive(Drop)]
pub enum Sets {
    /// A column's name is wanted.
    Want(Items<Set>),
    Named(Items<Set>, Text),
    /// In the new value, which may be whole.
    Value(Items<Set>, Text, ExprParser),
}

fn with_set(sets: Items<Set>, name: Text, value: Boxed<Expr>) -> Result<Items<Set>, NoMemory>
    ensures { IfOk result (λ s. s ≡ sets ++ set_of name value ∷ []) }
{
    let mut sets = sets;
    let value = value.into_inner();
    sets.push(Set { name, value })?;
    Ok(sets)
}

/// The assignments with a last one, where its value is whole.
fn with_whole(
    alloc: Global,
    sets: Items<Set>,
    name: Text,
    parser: ExprParser,
) -> Result<Option<Items<Set>>, NoMemory>
    ensures { IfOk result (λ s. s ≡ with_whole sets name parser) }
{
    match parser.finish(alloc)? {
        Some(value) => Ok(Some(with_set(sets, name, value)?)),
        None => Ok(None),
    }
}

fn on_value(
    alloc: Global,
    sets: Items<Set>,
    name: Text,
    parser: ExprParser,
    token: Token,
) -> Result<Option<Sets>, NoMemory>
    ensures { IfOk result (λ s. s ≡ step_value sets name parser token) }
{
    if is_mark(Mark::Comma, &token) {
        match with_whole(alloc, sets, name, parser)? {
            Some(sets) => Ok(Some(Sets::Want(sets))),
            None => Ok(None),
        }
    } else {
        match parser.step(alloc, token)? {
            Some(parser) => Ok(Some(Sets::Value(sets, name, parser))),
            None => Ok(None),
        }
    }
}

impl Sets {
    pub(crate) fn start(alloc: Global) -> Sets
        ensures { result ≡ sets_at.Want [] }
    {
        Sets::Want(Items::new(alloc))
    }

    pub(crate) fn step(self, alloc: Global, token: Token) -> Result<Option<Sets>, NoMemory>
        ensures { IfOk result (λ s. s ≡ step_sets self token) }
    {
        match self {
            Sets::Want(sets) => match name_of(token) {
                Some(name) => Ok(Some(Sets::Named(sets, name))),
                None => Ok(None),
            },
            Sets::Named(sets, name) => {
                if is_mark(Mark::Equals, &token) {
                    Ok(Some(Sets::Value(sets, name, ExprParser::start(alloc))))
                } else {
                    Ok(None)
                }
            }
            Sets::Value(sets, name, parser) => on_value(alloc, sets, name, parser, token),
        }
    }

    pub(crate) fn finish(self, alloc: Global) -> Result<Option<Items<Set>>, NoMemory>
        ensures { IfOk result (λ s. s ≡ whole_sets self) }
    {
        match self {
            Sets::Value(sets, name, parser) => with_whole(alloc, sets, name, parser),
            _ => Ok(None),
        }
    }
}
