// The words of a command.
ghost use Rattle.std.specs.Prelude.{◌≡◌, ◌+◌, ◌≤◌, ◌↔◌, ℕ, All, IsTrue};
ghost use Rattle.hb_acts.specs.Words.{IsCount, IsRun};

use hb_types::Text;

const RUN: &[u8] = b"run";

const BACK_ENDS: &[u8] = b"-b";

/// The most digits of a value.
const MOST_DIGITS: usize = 10;

fn is_word(word: &Text, bytes: &[u8]) -> bool
    ensures { IsTrue result ↔ (word.now ≡ bytes.now) }
{
    word.as_slice() == bytes
}

fn are_zeros(digits: &[u8]) -> bool
    ensures { IsTrue result ↔ All (λ b. b ≡ 48) digits.now }
{
    digits.iter().all(|b| *b == b'0')
}

/// The number from 1 to 8 of a digit behind zeros, or 0.
fn count_behind(zeros: &[u8], digit: u8) -> u8
    ensures is { 1 ≤ result → All (λ b. b ≡ 48) zeros.now × (digit ≡ 48 + result) }
    ensures only { (n : ℕ) → 1 ≤ n → n ≤ 8 → All (λ b. b ≡ 48) zeros.now → digit ≡ 48 + n → result ≡ n }
    ensures few { result ≤ 8 }
{
    if digit < b'1' || digit > b'8' || !are_zeros(zeros) {
        return 0;
    }
    digit - b'0'
}

/// The number from 1 to 8 that a value spells, or 0.
fn count_of(value: &[u8]) -> u8
    ensures spelled { 1 ≤ result → IsCount value.now result }
    ensures only { (n : ℕ) → IsCount value.now n → result ≡ n }
    ensures few { result ≤ 8 }
{
    if value.len() > MOST_DIGITS {
        return 0;
    }
    match value.split_last() {
        Some((digit, zeros)) => count_behind(zeros, *digit),
        None => 0,
    }
}

/// How many back ends the command of these words has: 0 where they are no command.
pub fn back_ends(words: &[Text]) -> u8
    ensures run { 1 ≤ result → IsRun words.now result }
    ensures only { (n : ℕ) → IsRun words.now n → result ≡ n }
    ensures few { result ≤ 8 }
{
    if words.len() == 3 && is_word(&words[0], RUN) && is_word(&words[1], BACK_ENDS) {
        count_of(words[2].as_slice())
    } else {
        0
    }
}
