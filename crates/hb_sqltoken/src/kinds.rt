// Kinds of bytes, and runs of them.
ghost use Rattle.std.specs.Prelude.{◌≡◌, ◌==◌, ◌≤◌, drop, length};
ghost use Rattle.hb_sqltoken.specs.Kinds.{is_digit, is_letter, in_name, is_blank, is_quote, run_of, begins_with};

#[tactic(auto, unfolding(crate::specs::Kinds::is_digit))]
pub(crate) fn is_digit(b: u8) -> bool
    ensures { result ≡ is_digit b }
{
    48 <= b && b <= 57
}

#[tactic(auto, unfolding(crate::specs::Kinds::is_letter))]
pub(crate) fn is_letter(b: u8) -> bool
    ensures { result ≡ is_letter b }
{
    65 <= b && b <= 90 || 97 <= b && b <= 122
}

#[tactic(auto, unfolding(crate::specs::Kinds::in_name))]
fn in_name(b: u8) -> bool
    ensures { result ≡ in_name b }
{
    is_letter(b) || is_digit(b) || b == 95
}

#[tactic(auto, unfolding(crate::specs::Kinds::is_blank))]
pub(crate) fn is_blank(b: u8) -> bool
    ensures { result ≡ is_blank b }
{
    b == 32 || b == 9
}

pub(crate) fn is_quote(b: u8) -> bool
    ensures { result ≡ is_quote b }
{
    b == 39
}

#[tactic(auto, using(crate::proofs::Runs::run_more, crate::proofs::Runs::run_stops, crate::proofs::Runs::run_ends))]
/// How many digits stand at the front.
pub(crate) fn digits_at(s: &[u8]) -> usize
    ensures within { result ≤ length s.now }
    ensures value { result ≡ run_of is_digit s.now }
{
    let mut end = 0;
    while end < s.len() && is_digit(s[end]) {
        end += 1;
    }
    end
}

#[tactic(auto, using(crate::proofs::Runs::run_more, crate::proofs::Runs::run_stops, crate::proofs::Runs::run_ends))]
/// How many bytes of a name stand at the front.
pub(crate) fn name_at(s: &[u8]) -> usize
    ensures within { result ≤ length s.now }
    ensures value { result ≡ run_of in_name s.now }
{
    let mut end = 0;
    while end < s.len() && in_name(s[end]) {
        end += 1;
    }
    end
}

#[tactic(auto, unfolding(crate::specs::Kinds::begins_with))]
pub(crate) fn begins_with_letter(s: &[u8]) -> bool
    ensures { result ≡ begins_with is_letter s.now }
{
    match s {
        [] => false,
        [first, ..] => is_letter(*first),
    }
}

#[tactic(auto, unfolding(crate::specs::Kinds::begins_with))]
pub(crate) fn begins_with_byte(s: &[u8], b: u8) -> bool
    ensures { result ≡ begins_with (λ c. c == b) s.now }
{
    match s {
        [] => false,
        [first, ..] => *first == b,
    }
}

/// The bytes from a place on.
pub(crate) fn from(s: &[u8], at: usize) -> &[u8]
    requires { at ≤ length s.now }
    ensures { result.now ≡ drop at s.now }
{
    s.split_at(at).1
}
