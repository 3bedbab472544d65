// In which area a group goes first, and which groups move where an area is added.
ghost use Rattle.std.specs.Prelude.{◌≡◌, ◌≤◌, ◌<◌, ◌+◌, ℕ, All, AllPairs, Contains, ◌≢◌, length, slice_index, count_by, position, ◌==◌};
ghost use Rattle.std.specs.List.{AllZip};
ghost use Rattle.hb_types.specs.Groups.{first_assignment as first, quota as quota_of, reassign as reassigned_entries, reassigned as reassigned_entry, target as target_of, is_moving};
ghost use Rattle.hb_groups.specs.Counts.{IsPlaced, count_at, StaysOrMoves};

use hb_types::Entry;

/// The position, from 0, of the area in a table's list of so many areas to which a group goes first.
pub fn first_assignment(group: u16, areas: u16) -> u16
    requires group { group < 1024 }
    requires some { 1 ≤ areas }
    requires few { areas ≤ 16 }
    ensures position { result ≡ first group areas }
    ensures below { result < areas }
{
    (u32::from(group) * u32::from(areas) / 1024) as u16
}

/// How many groups the area at a position, from 0, has once there are so many areas.
pub fn quota(position: u16, areas: u16) -> u16
    requires position { position < areas }
    requires few { areas ≤ 16 }
    ensures { result ≡ quota_of position areas }
{
    let more = if position < 1024 % areas { 1 } else { 0 };
    1024 / areas + more
}

/// Each area keeps its lowest groups up to its new quota, and gives the others to the added area,
/// which comes last in the list.
pub fn reassign(entries: &mut [Entry], areas: &[u16], added: u16)
    requires full { length entries.old ≡ 1024 }
    requires some { 1 ≤ length areas.now }
    requires few { length areas.now ≤ 15 }
    requires distinct { AllPairs (λ a b. a ≢ b) areas.now }
    requires placed { All (IsPlaced areas.now) entries.old }
    requires enough { (i : ℕ) → i < length areas.now → quota_of i (length areas.now + 1) ≤ count_at entries.old (slice_index areas.now i) }
    requires unused { ¬ Contains areas.now added }
    ensures entries { entries.new ≡ reassigned_entries entries.old areas.now added }
    ensures change { AllZip (StaysOrMoves added) entries.old entries.new }
    ensures kept { (i : ℕ) → i < length areas.now → count_at entries.new (slice_index areas.now i) ≡ quota_of i (length areas.now + 1) }
    ensures moved { count_by is_moving entries.new ≡ quota_of (length areas.now) (length areas.now + 1) }
{
    let mut seen = [0u16; 16];
    for entry in entries.iter_mut() {
        let area = target(*entry);
        let position = find(areas, area).unwrap_or(0);
        let kept = quota(position as u16, areas.len() as u16 + 1);
        *entry = reassigned(seen[position], kept, added, *entry);
        seen[position] += 1;
    }
}

/// The position of an area in the list, if it is there.
fn find(areas: &[u16], area: u16) -> Option<usize>
    ensures { result ≡ position (λ a. a == area) areas.now }
{
    areas.iter().position(|a| *a == area)
}

/// The area in which new rows of a group are put.
fn target(entry: Entry) -> u16
    ensures { result ≡ target_of entry }
{
    match entry {
        Entry::At(area) | Entry::Moving(_, area) => area,
    }
}

/// The entry of a group that comes after so many others of its area, of which so many stay.
fn reassigned(before: u16, kept: u16, added: u16, entry: Entry) -> Entry
    ensures { result ≡ reassigned_entry before kept added entry }
{
    match entry {
        Entry::At(area) if before >= kept => Entry::Moving(area, added),
        _ => entry,
    }
}
