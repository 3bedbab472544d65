// Rows in the order of their keys, and of their coming where those are equal.
ghost use Rattle.std.specs.Prelude.{◌≡◌, ◌+◌, OnOk, IfOk};
ghost use Rattle.std.specs.BTreeMap.{insert_entry};
ghost use Rattle.hb_talk.specs.Plans.{by_key};
ghost use Rattle.hb_planrows.specs.Ranks.{AreRanked, ranked_rows, rank_cmp};
ghost use Rattle.hb_planrows.specs.PlanRows.{with_one};

use crate::lying::Lying;
use hb_types::NoMemory;
use std::alloc::Global;
use std::collections::BTreeMap;

/// A key, and how many rows came before.
#[derive(Clone, Copy, Debug, PartialEq, Eq, PartialOrd, Ord)]
pub struct Rank {
    pub key: i64,
    pub nth: usize,
}

fn rank_of(l: &Lying, nth: usize) -> Rank
    ensures { result ≡ record { key = l.now.0.key; nth = nth } }
{
    Rank { key: l.0.key, nth }
}

fn put_at(sorted: &mut BTreeMap<Rank, Lying>, rank: Rank, l: Lying) -> Result<(), NoMemory>
    ensures { OnOk result (sorted.new.entries ≡ insert_entry rank_cmp sorted.old.entries rank l) }
{
    sorted.insert(rank, l)?;
    Ok(())
}

/// Adds the nth row, if it is one.
#[tactic(auto, using(crate::proofs::Ranked::inserted, crate::proofs::Ranked::nth_ranked, crate::proofs::Ranked::more_ranked))]
pub(crate) fn put_ranked(
    sorted: &mut BTreeMap<Rank, Lying>,
    nth: usize,
    l: Option<Lying>,
) -> Result<(), NoMemory>
    requires { AreRanked nth sorted.old.entries }
    ensures rows { OnOk result (ranked_rows sorted.new.entries ≡ with_one (ranked_rows sorted.old.entries) l) }
    ensures ranks { OnOk result (AreRanked (nth + 1) sorted.new.entries) }
{
    match l {
        Some(l) => {
            let rank = rank_of(&l, nth);
            put_at(sorted, rank, l)?;
            Ok(())
        }
        None => Ok(()),
    }
}

/// The rows in their order.
pub(crate) fn into_rows(
    alloc: Global,
    sorted: BTreeMap<Rank, Lying>,
) -> Result<Vec<Lying>, NoMemory>
    ensures { IfOk result (λ rows. rows.items ≡ ranked_rows sorted.entries) }
{
    let mut rows = Vec::new(alloc);
    for (_, l) in sorted {
        rows.push(l)?;
    }
    Ok(rows)
}
