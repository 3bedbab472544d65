// Each value has one spelling, and no spelling begins another.
ghost use Rattle.std.specs.Prelude.{◌≡◌, List, ℕ};
ghost use Rattle.hb_types.specs.declared.change.Change.{Change};
ghost use Rattle.hb_types.specs.declared.change.LogItem.{LogItem};
ghost use Rattle.hb_types.specs.declared.value.Value.{Value};
ghost use Rattle.hb_codec.specs.Reading.{OneForm};
ghost use Rattle.hb_codec.specs.Spellings.{SpellsRow, IsChangeOf, IsBodyOf};

/// A law of rows.
pub fn rows_have_one_form()
    ensures one_form { OneForm SpellsRow }
    ensures one_spelling { (values : List Value) (a b : List ℕ) → SpellsRow values a → SpellsRow values b → a ≡ b }
{}

/// A law of changes.
pub fn changes_have_one_form()
    ensures one_form { OneForm IsChangeOf }
    ensures one_spelling { (change : Change) (a b : List ℕ) → IsChangeOf change a → IsChangeOf change b → a ≡ b }
{}

/// A law of the bodies of records.
pub fn records_have_one_form()
    ensures one_form { OneForm IsBodyOf }
    ensures one_spelling { (item : LogItem) (a b : List ℕ) → IsBodyOf item a → IsBodyOf item b → a ≡ b }
{}
