// Symbols.
ghost use Rattle.std.specs.Prelude.{◌≡◌};
ghost use Rattle.hb_sqltoken.specs.Tokens.{symbol_token};

use crate::kinds::begins_with_byte;
use crate::token::Token;
use hb_model::Op;

/// The symbol that begins with a byte, and how many of the bytes behind it belong to it.
#[tactic(auto, unfolding(crate::specs::Tokens::symbol_token))]
pub(crate) fn symbol_token(byte: u8, behind: &[u8]) -> (Token, usize)
    ensures { (result.0, result.1) ≡ symbol_token byte behind.now }
{
    match byte {
        b'(' => (Token::Open, 0),
        b')' => (Token::Close, 0),
        b'*' => (Token::Star, 0),
        b'+' => (Token::Plus, 0),
        b',' => (Token::Comma, 0),
        b'-' => (Token::Minus, 0),
        b':' => (Token::Colon, 0),
        b';' => (Token::Semicolon, 0),
        b'=' => (Token::Compare(Op::Eq), 0),
        b'<' if begins_with_byte(behind, b'=') => (Token::Compare(Op::Le), 1),
        b'<' if begins_with_byte(behind, b'>') => (Token::Compare(Op::Ne), 1),
        b'<' => (Token::Compare(Op::Lt), 0),
        b'>' if begins_with_byte(behind, b'=') => (Token::Compare(Op::Ge), 1),
        b'>' => (Token::Compare(Op::Gt), 0),
        _ => (Token::Bad, 0),
    }
}
