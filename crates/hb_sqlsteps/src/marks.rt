// Tests on a token, and what it holds.
ghost use Rattle.std.specs.Prelude.{◌≡◌, ◌≤◌, IfSome};
ghost use Rattle.hb_sqlsteps.specs.Marks.{is_word, is_mark, is_letter, on_word, on_mark, on_letter, name_of, number_of};

use hb_model::Op;
use hb_sqltoken::{Token, Word};
use hb_types::Text;

/// A symbol.
#[derive(Clone, Copy, Debug, PartialEq, Eq)]
pub enum Mark {
    Open,
    Close,
    Comma,
    Colon,
    Semicolon,
    Star,
    Minus,
    Equals,
}

pub(crate) fn is_word(word: Word, token: &Token) -> bool
    ensures { result ≡ is_word word token.now }
{
    match token {
        Token::Word(found) => *found == word,
        _ => false,
    }
}

pub(crate) fn is_mark(mark: Mark, token: &Token) -> bool
    ensures { result ≡ is_mark mark token.now }
{
    match token {
        Token::Open => mark == Mark::Open,
        Token::Close => mark == Mark::Close,
        Token::Comma => mark == Mark::Comma,
        Token::Colon => mark == Mark::Colon,
        Token::Semicolon => mark == Mark::Semicolon,
        Token::Star => mark == Mark::Star,
        Token::Minus => mark == Mark::Minus,
        Token::Compare(op) => mark == Mark::Equals && *op == Op::Eq,
        _ => false,
    }
}

/// Whether it is the name of this one letter.
pub(crate) fn is_letter(letter: u8, token: &Token) -> bool
    ensures { result ≡ is_letter letter token.now }
{
    match token {
        Token::Name(name) => {
            let name = name.as_slice();
            name.len() == 1 && name[0] == letter
        }
        _ => false,
    }
}

/// What follows on this word alone.
pub(crate) fn on_word<T: Drop>(word: Word, token: &Token, next: T) -> Option<T>
    ensures { result ≡ on_word word token.now next }
{
    if is_word(word, token) {
        Some(next)
    } else {
        None
    }
}

/// What follows on this symbol alone.
pub(crate) fn on_mark<T: Drop>(mark: Mark, token: &Token, next: T) -> Option<T>
    ensures { result ≡ on_mark mark token.now next }
{
    if is_mark(mark, token) {
        Some(next)
    } else {
        None
    }
}

/// What follows on the name of this one letter alone.
pub(crate) fn on_letter<T: Drop>(letter: u8, token: &Token, next: T) -> Option<T>
    ensures { result ≡ on_letter letter token.now next }
{
    if is_letter(letter, token) {
        Some(next)
    } else {
        None
    }
}

pub(crate) fn name_of(token: Token) -> Option<Text>
    ensures { result ≡ name_of token }
{
    match token {
        Token::Name(name) => Some(name),
        _ => None,
    }
}

/// A number from 1 to a most.
pub(crate) fn number_of(most: u32, token: &Token) -> Option<u32>
    ensures { result ≡ number_of most token.now }
{
    match token {
        Token::Number(n) => {
            let n = *n;
            if 1 <= n && n <= most as u64 {
                Some(n as u32)
            } else {
                None
            }
        }
        _ => None,
    }
}
