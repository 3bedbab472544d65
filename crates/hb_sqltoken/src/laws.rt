// What the tokens of a line are.
ghost use Rattle.std.specs.Prelude.{◌≡◌, ℕ, List, ◌↔◌, ◌<◌, ◌≤◌, Some, length};
ghost use Rattle.std.specs.Str.{str_to_ascii_lowercase};
ghost use Rattle.std.specs.List.{All};
ghost use Rattle.hb_sqltoken.specs.Words.{spelling, word_of};
ghost use Rattle.hb_sqltoken.specs.Tokens.{every_token, tokens_of};
ghost use Rattle.hb_sqltoken.specs.Pieces.{MakeUp, Ascend};
ghost use Rattle.hb_sqltoken.specs.declared.token.Word.{Word};

/// Tokens and blanks make up a line, and each token is as long as it can be.
pub fn tokens_make_up_the_line()
    ensures { (line : List ℕ) → MakeUp (every_token line) 0 line }
{}

/// Each token's place is within the line, behind the place of the one before; there are at most 513.
pub fn places_ascend_within_the_line()
    ensures ascend { (line : List ℕ) → Ascend 0 (length line) (tokens_of line) }
    ensures within { (line : List ℕ) → All (λ t. t.place < length line) (tokens_of line) }
    ensures few { (line : List ℕ) → length (tokens_of line) ≤ 513 }
{}

/// A name is a reserved word exactly where its letters are the word's, in any case.
pub fn words_stand_in_any_case()
    ensures { (name : List ℕ) (w : Word) → (word_of name ≡ Some w) ↔ (str_to_ascii_lowercase name ≡ str_to_ascii_lowercase (spelling w)) }
{}
