// Integers.
ghost use Rattle.std.specs.Prelude.{◌≡◌, ◌≤◌, length};
ghost use Rattle.hb_sqltoken.specs.Tokens.{decimal, number_token};
ghost use Rattle.std.specs.List.{All};

use crate::kinds::begins_with_letter;
use crate::token::Token;

// The number that at most 19 digits spell.
fn decimal(digits: &[u8]) -> u64
    requires few { length digits.now ≤ 19 }
    requires digits { All (λ d. (48 ≤ d) × (d ≤ 57)) digits.now }
    ensures { result ≡ decimal 0 digits.now }
{
    let mut n = 0;
    for digit in digits {
        n = 10 * n + (*digit - b'0') as u64;
    }
    n
}

/// A run of digits, and what stands behind it.
#[tactic(auto, unfolding(crate::specs::Tokens::number_token))]
pub(crate) fn number_token(digits: &[u8], behind: &[u8]) -> Token
    requires { All (λ d. (48 ≤ d) × (d ≤ 57)) digits.now }
    ensures { result ≡ number_token digits.now behind.now }
{
    if digits.len() > 19 || begins_with_letter(behind) {
        return Token::Bad;
    }
    Token::Number(decimal(digits))
}
