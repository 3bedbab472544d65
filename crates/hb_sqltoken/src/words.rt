// The reserved words.
ghost use Rattle.std.specs.Prelude.{◌≡◌};
ghost use Rattle.std.specs.Array.Iter.{array_into_iter_items};
ghost use Rattle.std.specs.Str.{str_eq_ignore_ascii_case};
ghost use Rattle.hb_sqltoken.specs.Words.{spelling, reserved, word_of};

use crate::token::Word;
use std::array;

#[tactic(auto, unfolding(crate::specs::Words::spelling))]
fn spelling(word: Word) -> &'static [u8]
    ensures { result.now ≡ spelling word }
{
    match word {
        Word::Add => b"ADD",
        Word::Alter => b"ALTER",
        Word::And => b"AND",
        Word::Area => b"AREA",
        Word::At => b"AT",
        Word::Barrier => b"BARRIER",
        Word::By => b"BY",
        Word::Commit => b"COMMIT",
        Word::Count => b"COUNT",
        Word::Create => b"CREATE",
        Word::Delete => b"DELETE",
        Word::Exclusive => b"EXCLUSIVE",
        Word::From => b"FROM",
        Word::Give => b"GIVE",
        Word::Hash => b"HASH",
        Word::Hasha => b"HASHA",
        Word::In => b"IN",
        Word::Insert => b"INSERT",
        Word::Integer => b"INTEGER",
        Word::Into => b"INTO",
        Word::Lock => b"LOCK",
        Word::Mode => b"MODE",
        Word::Not => b"NOT",
        Word::On => b"ON",
        Word::Or => b"OR",
        Word::Pdrbal => b"PDRBAL",
        Word::Rdarea => b"RDAREA",
        Word::Rollback => b"ROLLBACK",
        Word::Select => b"SELECT",
        Word::Set => b"SET",
        Word::Share => b"SHARE",
        Word::Start => b"START",
        Word::Step => b"STEP",
        Word::Stop => b"STOP",
        Word::Sum => b"SUM",
        Word::Sync => b"SYNC",
        Word::Table => b"TABLE",
        Word::Update => b"UPDATE",
        Word::Values => b"VALUES",
        Word::Varchar => b"VARCHAR",
        Word::Where => b"WHERE",
    }
}

#[tactic(auto, unfolding(crate::specs::Words::reserved))]
fn reserved() -> array::IntoIter<Word, 41>
    ensures { array_into_iter_items result ≡ reserved }
{
    [
        Word::Add,
        Word::Alter,
        Word::And,
        Word::Area,
        Word::At,
        Word::Barrier,
        Word::By,
        Word::Commit,
        Word::Count,
        Word::Create,
        Word::Delete,
        Word::Exclusive,
        Word::From,
        Word::Give,
        Word::Hash,
        Word::Hasha,
        Word::In,
        Word::Insert,
        Word::Integer,
        Word::Into,
        Word::Lock,
        Word::Mode,
        Word::Not,
        Word::On,
        Word::Or,
        Word::Pdrbal,
        Word::Rdarea,
        Word::Rollback,
        Word::Select,
        Word::Set,
        Word::Share,
        Word::Start,
        Word::Step,
        Word::Stop,
        Word::Sum,
        Word::Sync,
        Word::Table,
        Word::Update,
        Word::Values,
        Word::Varchar,
        Word::Where,
    ]
    .into_iter()
}

fn spells(word: Word, name: &[u8]) -> bool
    ensures { result ≡ str_eq_ignore_ascii_case (spelling word) name.now }
{
    spelling(word).eq_ignore_ascii_case(name)
}

/// The reserved word that a name is, if it is one.
pub(crate) fn word_of(name: &[u8]) -> Option<Word>
    ensures { result ≡ word_of name.now }
{
    for candidate in reserved() {
        if spells(candidate, name) {
            return Some(candidate);
        }
    }
    None
}
