// The holders of one path, in the order of their first grants on it.
ghost use Rattle.std.specs.Prelude.{◌≡◌, ◌↔◌, [], IfOk, IsTrue, position};
ghost use Rattle.hb_locks.specs.Locks.{is_of, mode_of as mode_in, wanted_of as wanted_in, blockers as blockers_in, granted as granted_in, without as without_in};

use hb_types::{Holder, Mode, NoMemory, Tx, compatible, join};
use sqlite_items::Items;
use std::alloc::Global;
use std::marker::Model;

/// The holders of one path.
#[derive(Debug, Drop)]
pub(crate) struct Holders {
    list: Vec<Holder>,
}

impl Model for Holders {
    ghost use Rattle.std.specs.Prelude.{List};
    ghost use Rattle.hb_types.specs.declared.lock.Holder.{Holder};

    ghost Value = { List Holder };

    ghost view = { λ h. h.list.items };
}

impl Holders {
    /// These holders once the mode was granted.
    pub(crate) fn granted(
        alloc: Global,
        holders: &[Holder],
        tx: Tx,
        mode: Mode,
    ) -> Result<Holders, NoMemory>
        ensures { IfOk result (λ next. next ≡ granted_in tx mode holders.now) }
    {
        let list = with_grant(alloc, holders, Holder { tx, mode })?;
        Ok(Holders { list })
    }

    pub(crate) fn as_slice(&self) -> &[Holder]
        ensures { result.now ≡ self.now }
    {
        self.list.as_slice()
    }

    /// Takes the transaction out.
    pub(crate) fn remove(&mut self, tx: Tx)
        ensures { self.new ≡ without_in tx self.old }
    {
        remove_from(&mut self.list, tx);
    }

    pub(crate) fn is_empty(&self) -> bool
        ensures { IsTrue result ↔ (self.now ≡ []) }
    {
        self.list.is_empty()
    }
}

/// The mode in which the transaction holds the path.
pub(crate) fn mode_of(holders: &[Holder], tx: Tx) -> Option<Mode>
    ensures { result ≡ mode_in tx holders.now }
{
    holders.iter().find(|h| h.tx.0 == tx.0).map(|h| h.mode)
}

/// The mode that the transaction wants: what it holds already is joined with what it asks for.
pub(crate) fn wanted_of(holders: &[Holder], tx: Tx, asked: Mode) -> Mode
    ensures { result ≡ wanted_in (mode_in tx holders.now) asked }
{
    match mode_of(holders, tx) {
        Some(held) => join(held, asked),
        None => asked,
    }
}

/// The others whose modes can't stand beside the wanted one.
pub(crate) fn blockers(
    alloc: Global,
    holders: &[Holder],
    tx: Tx,
    wanted: Mode,
) -> Result<Items<Holder>, NoMemory>
    ensures { IfOk result (λ found. found ≡ blockers_in tx wanted holders.now) }
{
    let mut found = Items::new(alloc);
    for holder in holders {
        if holder.tx.0 != tx.0 && !compatible(holder.mode, wanted) {
            found.push(*holder)?;
        }
    }
    Ok(found)
}

fn position_of(holders: &[Holder], tx: Tx) -> Option<usize>
    ensures { result ≡ position (is_of tx) holders.now }
{
    holders.iter().position(|h| h.tx.0 == tx.0)
}

fn with_grant(alloc: Global, holders: &[Holder], grant: Holder) -> Result<Vec<Holder>, NoMemory>
    ensures { IfOk result (λ next. next.items ≡ granted_in grant.tx grant.mode holders.now) }
{
    let mut next = Vec::from_slice(alloc, holders)?;
    match position_of(holders, grant.tx) {
        Some(at) => next[at] = grant,
        None => next.push(grant)?,
    }
    Ok(next)
}

fn remove_from(holders: &mut Vec<Holder>, tx: Tx)
    ensures { holders.new.items ≡ without_in tx holders.old.items }
{
    holders.retain(|h| h.tx.0 != tx.0);
}
