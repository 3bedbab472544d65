// Laws about lines: what the lines of an input are, and what they say.
ghost use Rattle.std.specs.Prelude.{◌≡◌, ◌≢◌, ◌<◌, ℕ, List, [], ◌∷◌, ◌++◌, length};
ghost use Rattle.std.specs.List.{AllByRecursion};
ghost use Rattle.hb_lines.specs.declared.said.Said.{Said};
ghost use Rattle.hb_lines.specs.Lines.{without_return, lines_of};
ghost use Rattle.hb_lines.specs.Saying.{Says};

use hb_sqlparse::lines_say_one_thing;

/// A law: a line has no line feed.
pub fn no_feed()
    ensures { (input : List ℕ) → AllByRecursion (AllByRecursion (λ b. b ≢ 10)) (lines_of input) }
{}

/// A law: what stands before the first line feed is the first line, and what stands behind it has the others.
pub fn first_line()
    ensures { (front rest : List ℕ) → AllByRecursion (λ b. b ≢ 10) front → lines_of (front ++ 10 ∷ rest) ≡ without_return front ∷ lines_of rest }
{}

/// A law: without a line feed the whole input is its one line, but for an empty one.
pub fn last_line()
    ensures { (input : List ℕ) → AllByRecursion (λ b. b ≢ 10) input → 0 < length input → lines_of input ≡ without_return input ∷ [] }
{}

/// A law: a line says one thing.
pub fn one_thing()
    ensures { (line : List ℕ) (a b : Said) → Says line a → Says line b → a ≡ b }
{
    lines_say_one_thing();
}
