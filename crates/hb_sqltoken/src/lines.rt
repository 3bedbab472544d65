// The tokens of a line.
ghost use Rattle.std.specs.Prelude.{◌≡◌, ◌<◌, ◌≤◌, ◌+◌, ◌^◌, IfOk, length, get_or, drop};
ghost use Rattle.hb_sqltoken.specs.Tokens.{first_token, tokens_of};

use crate::kinds::{digits_at, from, is_blank, is_digit, is_letter, is_quote, name_at};
use crate::name::name_token;
use crate::number::number_token;
use crate::symbol::symbol_token;
use crate::text::text_token;
use crate::token::{Placed, Token};
use hb_types::NoMemory;
use sqlite_items::Items;
use std::alloc::Global;

/// How many tokens of a line may be good.
const MOST_TOKENS: usize = 512;

// The token at the front, and how many of the bytes behind its first belong to it.
fn first_token(alloc: Global, line: &[u8]) -> Result<(Token, usize), NoMemory>
    requires { 0 < length line.now }
    ensures { IfOk result (λ t. (t.0, t.1) ≡ first_token (get_or line.now 0 0) (drop 1 line.now)) }
{
    let byte = line[0];
    let behind = from(line, 1);
    if is_letter(byte) {
        let more = name_at(behind);
        let token = name_token(alloc, &line[..1 + more])?;
        Ok((token, more))
    } else if is_digit(byte) {
        let more = digits_at(behind);
        let token = number_token(&line[..1 + more], from(behind, more));
        Ok((token, more))
    } else if is_quote(byte) {
        text_token(alloc, behind)
    } else {
        Ok(symbol_token(byte, behind))
    }
}

/// The tokens of a line, the 513th of which is bad.
pub fn tokens(alloc: Global, line: &[u8]) -> Result<Items<Placed>, NoMemory>
    requires { length line.now < 2 ^ 32 }
    ensures { IfOk result (λ t. t ≡ tokens_of line.now) }
{
    let mut found = Items::new(alloc);
    let mut at = 0;
    while at < line.len() {
        if is_blank(line[at]) {
            at += 1;
            continue;
        }
        let place = at as u32;
        if found.len() == MOST_TOKENS {
            found.push(Placed {
                place,
                token: Token::Bad,
            })?;
            return Ok(found);
        }
        let (token, more) = first_token(alloc, from(line, at))?;
        found.push(Placed { place, token })?;
        at += 1 + more;
    }
    Ok(found)
}
