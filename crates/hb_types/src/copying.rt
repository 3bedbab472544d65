// Copies of lists and of values that may be missing.
ghost use Rattle.std.specs.Prelude.{◌≡◌, IfOk};

use crate::memory::NoMemory;
use sqlite_items::Items;
use std::alloc::Global;

/// Plain data that is copied with its lists.
pub trait Copied: Sized {
    fn copied(&self, alloc: Global) -> Result<Self, NoMemory>
        ensures { IfOk result (λ c. c ≡ self.now) };
}

/// A copy of a list, item by item.
pub fn copied_items<T: Copied + Drop>(alloc: Global, items: &Items<T>) -> Result<Items<T>, NoMemory>
    ensures { IfOk result (λ c. c ≡ items.now) }
{
    let mut out = Items::new(alloc);
    for item in items.as_slice() {
        out.push(item.copied(alloc)?)?;
    }
    Ok(out)
}

/// A copy of a value that may be missing.
pub fn copied_option<T: Copied>(alloc: Global, item: &Option<T>) -> Result<Option<T>, NoMemory>
    ensures { IfOk result (λ c. c ≡ item.now) }
{
    match item {
        Some(item) => Ok(Some(item.copied(alloc)?)),
        None => Ok(None),
    }
}

impl<T: Copied + Drop> Copied for Items<T> {
    fn copied(&self, alloc: Global) -> Result<Items<T>, NoMemory> {
        copied_items(alloc, self)
    }
}
