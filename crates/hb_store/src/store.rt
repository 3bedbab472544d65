// A store, by what it holds and what its disk holds at every moment.
ghost use Rattle.std.specs.Prelude.{◌≡◌, ◌↔◌, ◌⊎◌, ◌+◌, ◌-◌, ◌*◌, ◌≤◌, ◌^◌, ℕ, Bool, true, false, if◌then◌else◌, List, [], length, take, All, Option, Some, None, is_some, option_copied, unwrap_or, IfSome, IfOk, OnOk, OnErr, IsErrOf, Ok};
ghost use Rattle.std.specs.Ordering.{int_cmp};
ghost use Rattle.hb_edge.specs.Causes.{Rose};
ghost use Rattle.hb_edge.specs.Stops.{Leaves};
ghost use Rattle.hb_types.specs.declared.change.Stored.{Stored};
ghost use Rattle.hb_types.specs.declared.places.Path.TheVariants.{Group};
ghost use Rattle.hb_types.specs.declared.places.Place.{Place};
ghost use Rattle.hb_types.specs.Lists.{Ascends};
ghost use Rattle.hb_types.specs.Places.{place_cmp, same_place};
ghost use Rattle.hb_types.specs.Put.{lookup, put, rows_under};
ghost use Rattle.hb_types.specs.Rows.{IsRow};
ghost use Rattle.hb_disks.specs.Points.{Point as Whole, no_point};
ghost use Rattle.hb_store.specs.declared.point.Point.{Point as Mark};
ghost use Rattle.hb_store.specs.Meanings.{count_at, keys_of, mark_of, next_point, HoldsSame, IsOn, IsStored, Stays};

use crate::fault::StoreFault;
use crate::point::{Flushed, Point};
use hb_edge::{Clock, Disk};
use hb_types::{Change, NoMemory, Path, Place, Space, Stored};
use sqlite_items::Items;

/// Rows by place, with room for changes to come, and a synchronization point that is made piece by piece while rows change.
pub trait Store {
    /// The rows, by ascending place.
    ghost rows: { Self → List Stored };

    /// For how many changes at a place memory was taken.
    ghost room: { Self → Place → ℕ };

    /// What the valid point of an image is by this store's format, if it has one; nothing where its valid point isn't in the format.
    ghost point_in: { List ℕ → Option Whole → Type 0 };

    /// The place of an image's valid header.
    ghost header_in: { List ℕ → Option ℕ };

    /// The point that is begun.
    ghost begun: { Self → Option Mark };

    /// How many flushes the begun point still needs.
    ghost due: { Self → ℕ };

    /// Whether the format has no place left for the begun point.
    ghost is_spent: { Self → Bool };

    /// The image holds this valid point, and the store's calls go on over it.
    ghost keeps: { Self → Option Whole → List ℕ → Type 0 };

    /// What was written of the begun point stands in the image.
    ghost staged: { Self → List ℕ → Type 0 };

    /// The row at a place.
    fn row(&self, place: &Place) -> Option<&[u8]>
        ensures row { option_copied result ≡ lookup place.now (rows self.now) }
        ensures fits { IfSome result (λ r. IsRow r.now) };

    /// The rows under a path, ascending.
    fn list(&self, path: &Path) -> Result<Items<Stored>, NoMemory>
        ensures rows { IfOk result (λ found. found ≡ rows_under path.now (rows self.now)) }
        ensures ascending { IfOk result (Ascends (λ a b. place_cmp a.place b.place)) }
        ensures fit { IfOk result (All IsStored) };

    /// The first keys of a group, ascending.
    fn keys(&self, space: Space, group: u16, most: u32) -> Result<Items<i64>, NoMemory>
        ensures keys { IfOk result (λ found. found ≡ take most (keys_of (rows_under (Group space group) (rows self.now)))) }
        ensures ascending { IfOk result (Ascends int_cmp) };

    /// Takes the memory for changes at these places.
    fn room(&mut self, changes: &[Change]) -> Result<(), NoMemory>
        ensures added { OnOk result ((place : Place) → room self.new place ≡ room self.old place + count_at place changes.now) }
        ensures none { OnErr result ((place : Place) → room self.new place ≡ room self.old place) }
        ensures rows { rows self.new ≡ rows self.old }
        ensures begun { begun self.new ≡ begun self.old }
        ensures due { due self.new ≡ due self.old }
        ensures stays { Stays keeps staged self.old self.new };

    /// Gives back the memory for these changes, once each.
    fn unroom(&mut self, changes: &[Change])
        requires { (place : Place) → count_at place changes.now ≤ room self.old place }
        ensures room { (place : Place) → room self.old place ≡ room self.new place + count_at place changes.now }
        ensures rows { rows self.new ≡ rows self.old }
        ensures begun { begun self.new ≡ begun self.old }
        ensures due { due self.new ≡ due self.old }
        ensures stays { Stays keeps staged self.old self.new };

    /// Makes a change for which there is room. Where a point is begun a flush is due then.
    fn apply(&mut self, change: Change)
        requires room { 1 ≤ room self.old change.place }
        requires row { IfSome change.row IsRow }
        ensures rows { rows self.new ≡ put (rows self.old) change }
        ensures room { (place : Place) → room self.old place ≡ room self.new place + (if same_place place change.place then 1 else 0) }
        ensures begun { begun self.new ≡ begun self.old }
        ensures due { is_some (begun self.old) ≡ true → 1 ≤ due self.new }
        ensures stays { Stays keeps staged self.old self.new };

    /// Reads the valid point of a disk on which nothing is pending.
    fn load<D: Disk>(&mut self, disk: &mut D, clock: &mut Clock) -> Result<Point, StoreFault>
        requires { IfSome (D.content disk.old) (λ read. (image : List ℕ) → D.left disk.old (D.last disk.old) image → image ≡ read) }

        // The rows are those of the valid point, from which the store goes on.
        ensures point { IfOk result (λ mark. (read : List ℕ) → D.content disk.old ≡ Some read
            → (p : Option Whole) × point_in read p × (mark ≡ mark_of (unwrap_or p no_point)) × (rows self.new ≡ (unwrap_or p no_point).rows)
            × IsOn keeps staged (D.content disk.new) (D.left disk.new (D.last disk.new)) self.new p) }
        ensures in_range { IfOk result (λ mark. (mark.from ≤ 2 ^ 62) × (mark.floor.0 ≤ 2 ^ 62)) }
        ensures ascending { OnOk result (Ascends (λ a b. place_cmp a.place b.place) (rows self.new)) }
        ensures fit { OnOk result (All IsStored (rows self.new)) }
        ensures refused { OnErr result (rows self.new ≡ []) }
        ensures room { (place : Place) → room self.new place ≡ 0 }
        ensures begun { begun self.new ≡ None }

        // At every moment, and after a refusal, each image left holds the point of the disk as it read.
        ensures stop { (read : List ℕ) → D.content disk.old ≡ Some read → D.last disk.old ≤ clock.old
            → Leaves clock.old (D.left disk.old) (D.left disk.new) (λ m image. HoldsSame point_in read image) }

        ensures damaged { (place : ℕ) → IsErrOf result (StoreFault.Damaged place) → (read : List ℕ) → D.content disk.old ≡ Some read
            → (header_in read ≡ Some place) × ((p : Option Whole) → point_in read p → ⊥) }
        ensures not_spent { IsErrOf result StoreFault.Spent → ⊥ }
        ensures fault { IsErrOf result StoreFault.Fault → Rose (D.faults disk.old) (D.faults disk.new) }
        ensures count { D.faults disk.old ≤ D.faults disk.new }
        ensures told { is_some (D.content disk.new) ≡ is_some (D.content disk.old) }
        ensures clock { clock.old ≤ clock.new }
        ensures in_time { D.last disk.old ≤ clock.old → D.last disk.new ≤ clock.new };

    /// Begins a point.
    fn begin(&mut self, point: Point) -> Result<(), NoMemory>
        requires { (point.from ≤ 2 ^ 62) × (point.floor.0 ≤ 2 ^ 62) }
        ensures begun { OnOk result (begun self.new ≡ Some point) }
        ensures due { OnOk result (1 ≤ due self.new) }
        ensures none { OnErr result ((begun self.new ≡ begun self.old) × (due self.new ≡ due self.old)) }
        ensures rows { rows self.new ≡ rows self.old }
        ensures room { (place : Place) → room self.new place ≡ room self.old place }
        ensures stays { Stays keeps staged self.old self.new };

    /// Writes a piece of the begun point.
    fn flush_one<D: Disk>(&mut self, disk: &mut D, clock: &mut Clock) -> Result<Flushed, StoreFault>
        requires { is_some (begun self.old) ≡ true }
        ensures due { OnOk result (due self.new ≡ due self.old - 1) }
        ensures not_raised { due self.new ≤ due self.old }
        ensures last { IfOk result (λ flushed. (flushed ≡ Flushed.Last) ↔ (due self.new ≡ 0)) }
        ensures begun { OnOk result (begun self.new ≡ begun self.old) }
        ensures rows { rows self.new ≡ rows self.old }
        ensures room { (place : Place) → room self.new place ≡ room self.old place }

        // At every moment, and after a refusal, the valid point is the one from before.
        ensures stop { (p : Option Whole) → IsOn keeps staged (D.content disk.old) (D.left disk.old (D.last disk.old)) self.old p → D.last disk.old ≤ clock.old
            → Leaves clock.old (D.left disk.old) (D.left disk.new) (λ m image. point_in image p) }
        ensures goes_on { (p : Option Whole) → IsOn keeps staged (D.content disk.old) (D.left disk.old (D.last disk.old)) self.old p
            → (IsErrOf result StoreFault.Fault → ⊥) → IsOn keeps staged (D.content disk.new) (D.left disk.new (D.last disk.new)) self.new p }

        ensures no_memory { IsErrOf result StoreFault.NoMemory → (begun self.new ≡ begun self.old) × (due self.new ≡ due self.old) }
        ensures spent { IsErrOf result StoreFault.Spent → (is_spent self.old ≡ true) × (begun self.new ≡ None) }
        ensures not_spent { OnOk result (is_spent self.old ≡ false) }
        ensures not_damaged { (place : ℕ) → IsErrOf result (StoreFault.Damaged place) → ⊥ }
        ensures fault { IsErrOf result StoreFault.Fault → Rose (D.faults disk.old) (D.faults disk.new) }
        ensures count { D.faults disk.old ≤ D.faults disk.new }
        ensures told { is_some (D.content disk.new) ≡ is_some (D.content disk.old) }
        ensures clock { (clock.old ≤ clock.new) × (clock.new ≤ clock.old + 4) }
        ensures in_time { D.last disk.old ≤ clock.old → D.last disk.new ≤ clock.new };

    /// Makes the begun point the valid one, unless a flush is due.
    fn finish<D: Disk>(&mut self, disk: &mut D, clock: &mut Clock) -> Result<Flushed, StoreFault>
        requires { is_some (begun self.old) ≡ true }
        ensures more { IfOk result (λ flushed. (flushed ≡ Flushed.More) ↔ (1 ≤ due self.old)) }
        ensures not_raised { due self.new ≤ due self.old }
        ensures nothing { 1 ≤ due self.old → (result ≡ Ok Flushed.More) × (self.new ≡ self.old) × (disk.new ≡ disk.old) × (clock.new ≡ clock.old) }
        ensures rows { rows self.new ≡ rows self.old }
        ensures room { (place : Place) → room self.new place ≡ room self.old place }

        // At every moment, and after a refusal, the valid point is the one from before or the new one, which has the rows that stand now.
        ensures stop { (p : Option Whole) (mark : Mark) → IsOn keeps staged (D.content disk.old) (D.left disk.old (D.last disk.old)) self.old p → begun self.old ≡ Some mark
            → D.last disk.old ≤ clock.old
            → Leaves clock.old (D.left disk.old) (D.left disk.new) (λ m image. point_in image p ⊎ point_in image (Some (next_point p mark (rows self.old)))) }

        // After `Last` it is the new one.
        ensures made { IfOk result (λ flushed. flushed ≡ Flushed.Last → (begun self.new ≡ None)
            × ((p : Option Whole) (mark : Mark) → IsOn keeps staged (D.content disk.old) (D.left disk.old (D.last disk.old)) self.old p → begun self.old ≡ Some mark
            → IsOn keeps staged (D.content disk.new) (D.left disk.new (D.last disk.new)) self.new (Some (next_point p mark (rows self.old))))) }

        ensures no_memory { IsErrOf result StoreFault.NoMemory → (begun self.new ≡ begun self.old) × (due self.new ≡ due self.old)
            × ((p : Option Whole) → IsOn keeps staged (D.content disk.old) (D.left disk.old (D.last disk.old)) self.old p
            → IsOn keeps staged (D.content disk.new) (D.left disk.new (D.last disk.new)) self.new p) }
        ensures no_other { (IsErrOf result StoreFault.Spent → ⊥) × ((place : ℕ) → IsErrOf result (StoreFault.Damaged place) → ⊥) }
        ensures fault { IsErrOf result StoreFault.Fault → Rose (D.faults disk.old) (D.faults disk.new) }
        ensures count { D.faults disk.old ≤ D.faults disk.new }
        ensures told { is_some (D.content disk.new) ≡ is_some (D.content disk.old) }
        ensures clock { (clock.old ≤ clock.new) × (clock.new ≤ clock.old + 4) }
        ensures in_time { D.last disk.old ≤ clock.old → D.last disk.new ≤ clock.new };

    /// An image has at most one valid point.
    fn points_are_one()
        ensures { (image : List ℕ) (p q : Option Whole) → point_in image p → point_in image q → p ≡ q };

    /// What the store goes on over holds the point.
    ghost holds: { (store : Self) (p : Option Whole) (image : List ℕ) → keeps store p image → point_in image p };

    ghost none_due: { (store : Self) → begun store ≡ None → due store ≡ 0 };

    ghost few_due: { (store : Self) → due store ≤ 2 * length (rows store) + 1 };
}
