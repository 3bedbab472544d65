// Laws of ascending lists.
ghost use Rattle.std.specs.Prelude.{◌≡◌, List};
ghost use Rattle.hb_types.specs.Lists.{Ascends, IsIn};

/// Two strictly ascending lists with the same members are equal.
pub fn same_members<T: Ord>()
    ensures { (xs ys : List T) → Ascends T.cmp xs → Ascends T.cmp ys → ((x : T) → IsIn x xs → IsIn x ys) → ((x : T) → IsIn x ys → IsIn x xs) → xs ≡ ys }
{}
