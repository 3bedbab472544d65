// The paths that each transaction was granted.
ghost use Rattle.std.specs.Prelude.{◌≡◌, ℕ, ◌==◌, if◌then◌else◌, OnOk, OnErr, ◌++◌, ◌∷◌, []};
ghost use Rattle.hb_locks.specs.Index.{paths_at};

use hb_types::{NoMemory, Path, Tx};
use sqlite_items::Items;
use std::alloc::Global;
use std::collections::BTreeMap;

pub(crate) type Paths = BTreeMap<u64, Items<Path>>;

/// Adds a path to those of the transaction.
pub(crate) fn note(alloc: Global, paths: &mut Paths, tx: Tx, path: Path) -> Result<(), NoMemory>
    ensures ok { OnOk result ((t : ℕ) → paths_at paths.new t ≡ (if tx.0 == t then paths_at paths.old t ++ path ∷ [] else paths_at paths.old t)) }
    ensures err { OnErr result ((t : ℕ) → paths_at paths.new t ≡ paths_at paths.old t) }
{
    match paths.get_mut(&tx.0) {
        Some(list) => list.push(path)?,
        None => {
            let mut list = Items::new(alloc);
            list.push(path)?;
            paths.insert(tx.0, list)?;
        }
    }
    Ok(())
}
