// The changes by which a statement changes the rows that it chose.
ghost use Rattle.std.specs.Prelude.{◌≡◌, ◌++◌, ◌∷◌, [], true, None, map, IfErr, IfOk, OnOk};
ghost use Rattle.std.specs.List.{list_all};
ghost use Rattle.hb_types.specs.Lists.{Each};
ghost use Rattle.hb_types.specs.Rows.{IsRow, row_bytes as bytes_of_row};
ghost use Rattle.hb_model.specs.Refusals.{is_assignable as assignable};
ghost use Rattle.hb_model.specs.Rows.{assigned as assigned_row, assigning_refusal, first_some};
ghost use Rattle.hb_model.specs.Valid.{FitsAll};
ghost use Rattle.hb_talk.specs.Plans.{putting, removing};
ghost use Rattle.hb_planrows.specs.PlanRows.{IsPlain, rows_in};
ghost use Rattle.hb_sqlrow.specs.Refused.{IsReplyOf};
ghost use Rattle.hb_writes.specs.Underway.{IsWrite};
ghost use Rattle.hb_endings.specs.Rows.{IsFit};

use hb_codec::encode_row;
use hb_model::{Row, Set, Table};
use hb_planrows::Lying;
use hb_sqlrow::{SetFault, assigned};
use hb_types::{Bytes, Change, NoMemory};
use std::alloc::Global;

// The change that takes a row out.
fn removal(l: &Lying) -> Change
    ensures { result ≡ removing l.now.0 }
{
    Change {
        place: l.0,
        row: None,
    }
}

/// The changes of a DELETE.
pub(crate) fn removals(alloc: Global, found: &[&Lying]) -> Result<Vec<Change>, NoMemory>
    ensures { IfOk result (λ changes. changes.items ≡ map (λ l. removing l.0) (map (λ l. l.now) found.now)) }
{
    let mut changes = Vec::new(alloc);
    for l in found {
        changes.push(removal(*l))?;
    }
    Ok(changes)
}

// The bytes of a row that a table takes.
#[tactic(auto, using(crate::proofs::FitRows::fits_have, crate::proofs::FitRows::fits_row))]
fn encoded(alloc: Global, table: &Table, row: &Row) -> Result<Bytes, NoMemory>
    requires plain { IsPlain table.now }
    requires fit { FitsAll table.now.columns row.now }
    ensures row { IfOk result (λ bytes. bytes ≡ bytes_of_row row.now) }
    ensures sound { IfOk result IsRow }
{
    encode_row(alloc, row.as_slice())
}

// The change that assignments make of a row.
fn update(alloc: Global, table: &Table, sets: &[Set], l: &Lying) -> Result<Change, SetFault>
    requires plain { IsPlain table.now }
    requires assignable { list_all (assignable table.now) sets.now ≡ true }
    requires fit { IsFit table.now l.now }
    ensures change { IfOk result (λ c. c ≡ putting l.now.0 (assigned_row table.now sets.now l.now.1)) }
    ensures write { IfOk result IsWrite }
    ensures accepted { IfOk result (λ _. assigning_refusal table.now sets.now l.now.1 ≡ None) }
    ensures refused { IfErr result (λ e. IsReplyOf e (assigning_refusal table.now sets.now l.now.1)) }
{
    let place = l.0;
    let row = assigned(alloc, table, sets, &l.1)?;
    let row = encoded(alloc, table, &row)?;
    Ok(Change {
        place,
        row: Some(row),
    })
}

fn add(changes: &mut Vec<Change>, change: Change) -> Result<(), NoMemory>
    ensures { OnOk result (changes.new.items ≡ changes.old.items ++ change ∷ []) }
{
    changes.push(change)?;
    Ok(())
}

/// The changes of an UPDATE.
pub(crate) fn updates(
    alloc: Global,
    table: &Table,
    sets: &[Set],
    found: &[&Lying],
) -> Result<Vec<Change>, SetFault>
    requires plain { IsPlain table.now }
    requires assignable { list_all (assignable table.now) sets.now ≡ true }
    requires fit { Each (IsFit table.now) (map (λ l. l.now) found.now) }
    ensures changes { IfOk result (λ changes. changes.items ≡ map (λ l. putting l.0 (assigned_row table.now sets.now l.1)) (map (λ l. l.now) found.now)) }
    ensures writes { IfOk result (λ changes. Each IsWrite changes.items) }
    ensures accepted { IfOk result (λ _. first_some (assigning_refusal table.now sets.now) (rows_in (map (λ l. l.now) found.now)) ≡ None) }
    ensures refused { IfErr result (λ e. IsReplyOf e (first_some (assigning_refusal table.now sets.now) (rows_in (map (λ l. l.now) found.now)))) }
{
    let mut changes = Vec::new(alloc);
    'rows: for l in found {
        let change = update(alloc, table, sets, *l)?;
        add(&mut changes, change)?;
    }
    Ok(changes)
}
