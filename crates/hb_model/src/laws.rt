// Laws of statements, of rows by key and of the dictionary.
ghost use Rattle.std.specs.Prelude.{◌≡◌, ℕ, ℤ, Bool, List, find};
ghost use Rattle.hb_types.specs.declared.value.Value.{Value};
ghost use Rattle.hb_model.specs.Rows.{AreByKey};
ghost use Rattle.hb_model.specs.TableRows.{has_key};
ghost use Rattle.hb_model.specs.declared.table.Table.{Table};
ghost use Rattle.hb_types.specs.declared.places.Place.{Place};
ghost use Rattle.hb_types.specs.Put.{lookup};
ghost use Rattle.hb_model.specs.ByNumber.{IsByNumber};
ghost use Rattle.hb_model.specs.Dictionary.{dictionary, rows_in_space};
ghost use Rattle.hb_model.specs.Valid.{IsState};
ghost use Rattle.hb_model.specs.Does.{does};
ghost use Rattle.hb_model.specs.Kept.{NamesStay};
ghost use Rattle.hb_model.specs.State.{State};
ghost use Rattle.hb_model.specs.declared.statement.Statement.{Statement};

/// No statement, refused or not, changes a name's number or a table's columns.
pub fn names_stay()
    ensures { (back_ends spent : ℕ) (s : State) (full : Bool) (st : Statement) → NamesStay s (does back_ends s spent full st).state }
{}

/// Rows by ascending key are told by the row of each key.
pub fn same_by_key()
    ensures { (t : Table) (xs ys : List (List Value)) → AreByKey t xs → AreByKey t ys → ((key : ℤ) → find (has_key t key) xs ≡ find (has_key t key) ys) → xs ≡ ys }
{}

/// What stands at a place of the dictionary stands among the rows of its space, and is told by number.
pub fn dictionary_by_place()
    ensures by_space { (s : State) (p : Place) → lookup p (dictionary s) ≡ lookup p (rows_in_space s p.space.table) }
    ensures by_number { (back_ends : ℕ) (s : State) → IsState back_ends s → IsByNumber s }
{}
