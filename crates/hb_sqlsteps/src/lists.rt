// Lists of names and of values with commas between, token by token.
ghost use Rattle.std.specs.Prelude.{◌≡◌, IfOk, Some, [], ◌∷◌, ◌++◌};
ghost use Rattle.hb_sqlsteps.specs.ListSteps.{step_names, whole_names, want_value, want_opposite, step_values, whole_values};
ghost use Rattle.hb_sqlsteps.specs.declared.lists.Names.TheVariants as names_at;
ghost use Rattle.hb_sqlsteps.specs.declared.lists.Values.TheVariants as values_at;

use crate::marks::{Mark, name_of, on_mark};
use hb_sqltoken::Token;
use hb_types::{NoMemory, Text, Value};
use sqlite_items::Items;
use std::alloc::Global;

/// Names, as far as they have come: one more is wanted, or the last is there.
#[derive(Drop)]
pub enum Names {
    Want(Items<Text>),
    Have(Items<Text>),
}

impl Names {
    pub(crate) fn start(alloc: Global) -> Names
        ensures { result ≡ names_at.Want [] }
    {
        Names::Want(Items::new(alloc))
    }

    pub(crate) fn step(self, token: Token) -> Result<Option<Names>, NoMemory>
        ensures { IfOk result (λ n. n ≡ step_names self token) }
    {
        match self {
            Names::Want(mut names) => match name_of(token) {
                Some(name) => {
                    names.push(name)?;
                    Ok(Some(Names::Have(names)))
                }
                None => Ok(None),
            },
            Names::Have(names) => Ok(on_mark(Mark::Comma, &token, Names::Want(names))),
        }
    }

    pub(crate) fn finish(self) -> Option<Items<Text>>
        ensures { result ≡ whole_names self }
    {
        match self {
            Names::Want(_) => None,
            Names::Have(names) => Some(names),
        }
    }
}

/// Values, as far as they have come: one more is wanted, a number is wanted behind a minus, or the last is there.
#[derive(Drop)]
pub enum Values {
    Want(Items<Value>),
    Minus(Items<Value>),
    Have(Items<Value>),
}

fn with_value(values: Items<Value>, value: Value) -> Result<Option<Values>, NoMemory>
    ensures { IfOk result (λ n. n ≡ Some (values_at.Have (values ++ value ∷ []))) }
{
    let mut values = values;
    values.push(value)?;
    Ok(Some(Values::Have(values)))
}

fn on_want_value(values: Items<Value>, token: Token) -> Result<Option<Values>, NoMemory>
    ensures { IfOk result (λ n. n ≡ want_value values token) }
{
    match token {
        Token::Number(n) => with_value(values, Value::Int(n as i128)),
        Token::Text(text) => with_value(values, Value::Text(text)),
        Token::Minus => Ok(Some(Values::Minus(values))),
        _ => Ok(None),
    }
}

fn on_want_opposite(values: Items<Value>, token: &Token) -> Result<Option<Values>, NoMemory>
    ensures { IfOk result (λ n. n ≡ want_opposite values token.now) }
{
    match token {
        Token::Number(n) => with_value(values, Value::Int(0 - *n as i128)),
        _ => Ok(None),
    }
}

impl Values {
    pub(crate) fn start(alloc: Global) -> Values
        ensures { result ≡ values_at.Want [] }
    {
        Values::Want(Items::new(alloc))
    }

    pub(crate) fn step(self, token: Token) -> Result<Option<Values>, NoMemory>
        ensures { IfOk result (λ n. n ≡ step_values self token) }
    {
        match self {
            Values::Want(values) => on_want_value(values, token),
            Values::Minus(values) => on_want_opposite(values, &token),
            Values::Have(values) => Ok(on_mark(Mark::Comma, &token, Values::Want(values))),
        }
    }

    pub(crate) fn finish(self) -> Option<Items<Value>>
        ensures { result ≡ whole_values self }
    {
        match self {
            Values::Have(values) => Some(values),
            _ => None,
        }
    }
}
