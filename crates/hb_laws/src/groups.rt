// Laws of hash groups and quotas.
ghost use Rattle.std.specs.Prelude.{◌≡◌, ℕ, ℤ, ◌<◌, ◌≤◌, ◌∷◌, [], map};
ghost use Rattle.hb_types.specs.Groups.{group_of, groups, quota};
ghost use Rattle.hb_laws.specs.Vectors.{vector_keys, vector_groups, quotas_in_all};

pub fn each_group_is_below()
    ensures { (key : ℤ) → group_of key < groups }
{}

pub fn groups_of_the_vectors()
    ensures { map group_of vector_keys ≡ vector_groups }
{}

/// However many areas a table has, their quotas are all its groups.
pub fn quotas_sum()
    ensures { (areas : ℕ) → 1 ≤ areas → areas ≤ 16 → quotas_in_all areas ≡ groups }
{}

pub fn quotas_of_three_areas()
    ensures { map (λ i. quota i 3) (0 ∷ 1 ∷ 2 ∷ []) ≡ 342 ∷ 341 ∷ 341 ∷ [] }
{}
