// Laws of rows by ascending place, and of what changes make of them.
ghost use Rattle.std.specs.Prelude.{◌≡◌, List, if◌then◌else◌};
ghost use Rattle.hb_types.specs.Places.{same_place};
ghost use Rattle.hb_types.specs.Put.{put, put_all, lookup, last_at};
ghost use Rattle.hb_types.specs.declared.change.Change.{Change};
ghost use Rattle.hb_types.specs.declared.change.Stored.{Stored};
ghost use Rattle.hb_types.specs.declared.places.Place.{Place};
ghost use Rattle.hb_laws.specs.RowOrder.{AreAscending};

/// At the place of a change stands its row, or nothing; elsewhere what stood there.
pub fn lookup_in_changed()
    ensures { (x : Place) (rows : List Stored) (c : Change) → lookup x (put rows c) ≡ if same_place x c.place then c.row else lookup x rows }
{}

/// Behind many changes stands at a place what the last of them there put, else what stood there.
pub fn lookup_in_folded()
    ensures { (x : Place) (rows : List Stored) (cs : List Change) → lookup x (put_all rows cs) ≡ last_at x cs (lookup x rows) }
{}

pub fn changed_rows_ascend()
    ensures { (rows : List Stored) (c : Change) → AreAscending rows → AreAscending (put rows c) }
{}

/// Rows by ascending place are told by what stands at each place.
pub fn same_lookups()
    ensures { (xs ys : List Stored) → AreAscending xs → AreAscending ys → ((x : Place) → lookup x xs ≡ lookup x ys) → xs ≡ ys }
{}
