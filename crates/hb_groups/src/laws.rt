// Laws on the counts of groups, which hold of the definitions alone.
ghost use Rattle.std.specs.Prelude.{◌≡◌, ◌≢◌, ◌≤◌, ◌<◌, ◌+◌, ℕ, All, AllPairs, length, slice_index};
ghost use Rattle.hb_types.specs.Groups.{first_entries, quota as quota_of};
ghost use Rattle.hb_groups.specs.Counts.{IsEvenShare, IsPlaced, count_at};

/// Each quota is an even share.
pub fn quota_is_even(position: u16, areas: u16)
    requires position { position < areas }
    requires few { areas ≤ 16 }
    ensures { IsEvenShare (quota_of position areas) areas }
{}

/// An area with an even share has enough groups for its quota once an area is added.
pub fn even_share_is_enough(position: u16, areas: u16)
    requires position { position < areas }
    requires few { areas ≤ 15 }
    ensures { (count : ℕ) → IsEvenShare count areas → quota_of position (areas + 1) ≤ count }
{}

/// A new table's groups lie in its areas, each of which has an even share.
pub fn first_entries_are_even(areas: &[u16])
    requires some { 1 ≤ length areas.now }
    requires few { length areas.now ≤ 16 }
    requires distinct { AllPairs (λ a b. a ≢ b) areas.now }
    ensures full { length (first_entries areas.now) ≡ 1024 }
    ensures placed { All (IsPlaced areas.now) (first_entries areas.now) }
    ensures even { (i : ℕ) → i < length areas.now → IsEvenShare (count_at (first_entries areas.now) (slice_index areas.now i)) (length areas.now) }
{}
