// Redo of a server's log.
ghost use Rattle.std.specs.Prelude.{◌≡◌, ◌+◌, ◌*◌, ◌<◌, ◌≤◌, ◌^◌, ℕ, false, All, IfOk, OnOk, IsErrOf, IsTrue, length, map};
ghost use Rattle.hb_types.specs.declared.places.Place.{Place};
ghost use Rattle.hb_types.specs.Records.{HasRecord};
ghost use Rattle.hb_laws.specs.RowOrder.{AreAscending};
ghost use Rattle.hb_runs.specs.Server.{SState};
ghost use Rattle.hb_engine.specs.Restores.{IsUpWith};
ghost use Rattle.hb_engine.specs.Turned.{StandsFor};
ghost use Rattle.hb_store.specs.Meanings.{room_for, Stays};
ghost use Rattle.hb_redo.specs.Damage.{FirstBad, IsDamaged, NoneBad, items_of};
ghost use Rattle.hb_redo.specs.Restarts.{redone};

use crate::ends::count;
use crate::fault::RedoFault;
use crate::pending::Pending;
use hb_engine::Engine;
use hb_store::Store;
use hb_types::{Number, Placed, Tx};
use sqlite_items::Items;
use std::alloc::Global;

/// The greatest place at which a log may end.
const GREATEST: u64 = 1 << 62;

/// For how many bytes there is room for the end of each branch in doubt.
const END_ROOM: u64 = 32;

/// What a server that comes up holds, and the transactions in doubt, in the order of their votes.
#[derive(Drop)]
pub struct Restarted {
    pub engine: Engine,
    pub doubts: Items<Tx>,
}

/// Redoes the records of a log from a synchronization point on, of which the store has the rows and this is the floor; the log ends at
/// `end`. After an error the store is to be loaded again: it may have some of the changes, and memory taken for others.
#[tactic(auto, using(crate::proofs::Staying::stays_same, crate::proofs::Staying::stays_then))]
pub fn redo<S: Store>(
    alloc: Global,
    store: &mut S,
    floor: Number,
    records: &[Placed],
    end: u64,
) -> Result<Restarted, RedoFault>
    requires ascending { AreAscending (S.rows store.old) }
    requires recorded { All (λ p. HasRecord p.item) records.now }

    // The engine and the store's rows stand for each server that came up with what redo gives.
    ensures stands { IfOk result (λ found. (s : SState) → IsUpWith (redone (S.rows store.old) floor records.now) s → StandsFor found.engine (S.rows store.new) s) }
    ensures doubts { IfOk result (λ found. map (λ t. t.0) found.doubts ≡ map (λ p. p.tx) (redone (S.rows store.old) floor records.now).doubts) }
    ensures rows { OnOk result (S.rows store.new ≡ (redone (S.rows store.old) floor records.now).rows) }

    // Memory is taken for the changes of each branch in doubt.
    ensures room { OnOk result ((place : Place) → S.room store.new place ≡ S.room store.old place + room_for place (redone (S.rows store.old) floor records.now).doubts) }
    ensures none_bad { OnOk result (NoneBad records.now) }
    ensures end { OnOk result (end + 32 * length (redone (S.rows store.old) floor records.now).doubts ≤ 2 ^ 62) }
    ensures damaged { (place : ℕ) → IsErrOf result (RedoFault.Damaged place) → IsDamaged records.now end place }
    ensures begun { S.begun store.new ≡ S.begun store.old }
    ensures stays { Stays S.keeps S.staged store.old store.new }
{
    let ends = count(alloc, records)?;
    let mut pending = Pending::new(alloc, floor, ends);
    for index in 0..records.len() {
        let record = &records[index];
        if !pending.take(alloc, store, records, index, &record.item)? {
            let place = record.place;
            return Err(RedoFault::Damaged { place });
        }
    }
    if !has_room(end, pending.told.len()) {
        return Err(RedoFault::Damaged { place: end });
    }
    Ok(Restarted {
        engine: pending.engine,
        doubts: pending.told,
    })
}

/// Whether a log that ends here has room for the ends of so many branches.
fn has_room(end: u64, branches: usize) -> bool
    ensures yes { IsTrue result → end + 32 * branches ≤ 2 ^ 62 }
    ensures no { result ≡ false → 2 ^ 62 < end + 32 * branches }
{
    let room = (branches as u64).saturating_mul(END_ROOM);
    end.saturating_add(room) <= GREATEST
}
