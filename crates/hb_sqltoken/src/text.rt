// Texts.
ghost use Rattle.std.specs.Prelude.{◌≡◌, IfOk, option_map, ◌≤◌, length};
ghost use Rattle.hb_sqltoken.specs.Tokens.{quoted, text_token};

use crate::kinds::{begins_with_byte, from, is_quote};
use crate::token::Token;
use hb_types::{NoMemory, Text};
use std::alloc::Global;

/// A text behind its first quote, and how many of these bytes belong to it.
#[tactic(auto, unfolding(crate::specs::Tokens::text_token, crate::specs::Tokens::text_token_as))]
pub(crate) fn text_token(alloc: Global, behind: &[u8]) -> Result<(Token, usize), NoMemory>
    ensures { IfOk result (λ t. (t.0, t.1) ≡ text_token behind.now) }
{
    let mut text = Vec::new(alloc);
    let mut at = 0;
    while at < behind.len() {
        let byte = behind[at];
        if !is_quote(byte) {
            text.push(byte)?;
            at += 1;
        } else if begins_with_byte(from(behind, at + 1), b'\'') {
            text.push(byte)?;
            at += 2;
        } else {
            return Ok((Token::Text(Text::new(text)), at + 1));
        }
    }
    Ok((Token::Bad, behind.len()))
}
