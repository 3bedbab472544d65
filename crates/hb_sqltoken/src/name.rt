// Names and reserved words.
ghost use Rattle.std.specs.Prelude.{◌≡◌, IfOk};
ghost use Rattle.hb_sqltoken.specs.Tokens.{name_token};

use crate::token::Token;
use crate::words::word_of;
use hb_types::{NoMemory, Text};
use std::alloc::Global;

/// A reserved word, or a name of at most 30 bytes.
#[tactic(auto, unfolding(crate::specs::Tokens::name_token, crate::specs::Tokens::name_token_as))]
pub(crate) fn name_token(alloc: Global, name: &[u8]) -> Result<Token, NoMemory>
    ensures { IfOk result (λ t. t ≡ name_token name.now) }
{
    match word_of(name) {
        Some(word) => Ok(Token::Word(word)),
        None if name.len() <= 30 => Ok(Token::Name(Text::new(Vec::from_slice(alloc, name)?))),
        None => Ok(Token::Bad),
    }
}
