// A branch's own changes.
ghost use Rattle.std.specs.Prelude.{◌≡◌, ◌≤◌, [], ◌∷◌, ◌++◌, List, length, slice_get, IfOk, OnOk, OnErr};
ghost use Rattle.std.specs.Option.{option_copied};
ghost use Rattle.hb_types.specs.declared.change.Change.{Change};
ghost use Rattle.hb_types.specs.declared.change.Stored.{Stored};
ghost use Rattle.hb_types.specs.Lists.{Ascends};
ghost use Rattle.hb_types.specs.Put.{last_at, lookup, normal, put_all, rows_under};
ghost use Rattle.hb_laws.specs.RowOrder.{AreAscending};
ghost use Rattle.hb_branch.specs.Overlays.{change_cmp, putting, rank, seen, stands};

use crate::merge::merged;
use hb_types::{Change, NoMemory, Path, Place, Stored, Tx};
use sqlite_items::{Items, at};
use std::alloc::Global;
use std::marker::Model;

/// A transaction's changes, by ascending place, one a place: the last one that it made there.
#[derive(Drop)]
pub struct Branch {
    alloc: Global,
    of: Tx,
    list: Vec<Change>,
}

impl Model for Branch {
    ghost use Rattle.hb_types.specs.Lists.{Ascends};
    ghost use Rattle.hb_branch.specs.Overlays.{Overlay, change_cmp};

    ghost Value = { Overlay };

    ghost view = { λ b. record { tx = b.of; changes = b.list.items } };

    ghost invariant = { λ b. Ascends change_cmp b.list.items };
}

impl Branch {
    pub fn new(alloc: Global, tx: Tx) -> Branch
        ensures { result ≡ record { tx = tx; changes = [] } }
    {
        Branch {
            alloc,
            of: tx,
            list: Vec::new(alloc),
        }
    }

    pub fn tx(&self) -> Tx
        ensures { result ≡ self.now.tx }
    {
        self.of
    }

    /// What the transaction sees at a place, where the base is what stands there without its changes.
    pub fn read<'a>(&'a self, base: Option<&'a [u8]>, place: &Place) -> Option<&'a [u8]>
        ensures changed { option_copied result ≡ last_at place.now self.now.changes (option_copied base.entry) }
        ensures seen { (rows : List Stored) (own : List Change) → self.now.changes ≡ normal own → option_copied base.entry ≡ lookup place.now rows
            → option_copied result ≡ lookup place.now (put_all rows own) }
    {
        overlaid(at(&self.list, position(&self.list, place)), base, place)
    }

    /// The rows under a path as the transaction sees them, where the base has those without its changes.
    pub fn scan(&self, base: &[Stored], path: &Path) -> Result<Items<Stored>, NoMemory>
        requires { AreAscending base.now }
        ensures { IfOk result (λ found. (rows : List Stored) (own : List Change) → self.now.changes ≡ normal own → AreAscending rows
            → base.now ≡ rows_under path.now rows → found ≡ rows_under path.now (put_all rows own)) }
    {
        merged(self.alloc, base, &self.list, path)
    }

    /// Makes a change.
    pub fn put(&mut self, change: Change) -> Result<(), NoMemory>
        ensures ok { OnOk result (self.new ≡ record { tx = self.old.tx; changes = putting change self.old.changes }) }
        ensures written { OnOk result ((own : List Change) → self.old.changes ≡ normal own → self.new.changes ≡ normal (own ++ change ∷ [])) }
        ensures err { OnErr result (self.new ≡ self.old) }
    {
        put_in(&mut self.list, change)
    }

    /// The changes by ascending place, one a place.
    pub fn changes(&self) -> &[Change]
        ensures all { result.now ≡ self.now.changes }
        ensures ascending { Ascends change_cmp self.now.changes }
    {
        &self.list
    }

    /// The changes by ascending place, each to be taken in turn.
    pub fn into_list(self) -> Vec<Change>
        ensures { result.items ≡ self.changes }
    {
        let Branch {
            alloc: _,
            of: _,
            list,
        } = self;
        list
    }
}

/// How many of the changes lie below a place.
fn position(list: &[Change], place: &Place) -> usize
    requires { Ascends change_cmp list.now }
    ensures rank { result ≡ rank place.now list.now }
    ensures within { result ≤ length list.now }
{
    list.partition_point(|change| change.place < *place)
}

/// The row of a change where it lies at the place, else the base.
fn overlaid<'a>(
    change: Option<&'a Change>,
    base: Option<&'a [u8]>,
    place: &Place,
) -> Option<&'a [u8]>
    ensures { option_copied result ≡ seen place.now (option_copied base.entry) (option_copied change.entry) }
{
    match change {
        Some(change) if change.place == *place => match &change.row {
            Some(row) => Some(row.as_slice()),
            None => None,
        },
        _ => base,
    }
}

fn put_in(list: &mut Vec<Change>, change: Change) -> Result<(), NoMemory>
    requires { Ascends change_cmp list.old.items }
    ensures ok { OnOk result (list.new.items ≡ putting change list.old.items) }
    ensures err { OnErr result (list.new.items ≡ list.old.items) }
    ensures ascending { Ascends change_cmp list.new.items }
{
    let nth = position(list, &change.place);
    if is_at(list, nth, &change.place) {
        list[nth] = change;
    } else {
        list.insert(nth, change)?;
    }
    Ok(())
}

/// Whether the change at a position lies at this place.
fn is_at(list: &[Change], nth: usize, place: &Place) -> bool
    ensures { result ≡ stands place.now (slice_get list.now nth) }
{
    match at(list, nth) {
        Some(change) => change.place == *place,
        None => false,
    }
}
