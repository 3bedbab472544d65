// What the grammar of lines, and what is found token by token, have in common.
ghost use Rattle.std.specs.Prelude.{◌≡◌, ℕ, List};
ghost use Rattle.hb_model.specs.declared.script.Item.{Item};
ghost use Rattle.hb_sqltoken.specs.declared.token.Token.{Token};
ghost use Rattle.hb_sqlparse.specs.Grammar.{IsLine};
ghost use Rattle.hb_sqlparse.specs.Lines.{tokens_in};
ghost use Rattle.hb_sqlparse.specs.PlainLines.{IsPlainItem};
ghost use Rattle.hb_sqlparse.specs.Laws.{ReadsLines};

use hb_sqlcond::{conditions_are_read, expressions_are_read};
use hb_sqltoken::{places_ascend_within_the_line, tokens_make_up_the_line};

/// The lines that are found token by token are those of the grammar, and each place in a line can be completed.
pub fn lines_are_read()
    ensures { ReadsLines }
{
    expressions_are_read();
    conditions_are_read();
}

/// Tokens are one line at most.
pub fn lines_say_one_thing()
    ensures { (a b : Item) (tokens : List Token) → IsLine a tokens → IsLine b tokens → a ≡ b }
{
    lines_are_read();
}

/// What a line of bytes says has valid names, numbers of at most 19 digits, and lists of 1 to 512 members.
pub fn lines_are_plain()
    ensures { (item : Item) (line : List ℕ) → IsLine item (tokens_in line) → IsPlainItem item }
{
    tokens_make_up_the_line();
    places_ascend_within_the_line();
}
