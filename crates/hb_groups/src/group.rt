// The group of a key, and the areas in which it is looked for.
ghost use Rattle.std.specs.Prelude.{◌≡◌, ◌∷◌, ◌<◌, ◌++◌, [], FitsSigned};
ghost use Rattle.std.specs.Int.{w32};
ghost use Rattle.std.specs.Option.{option_to_list};
ghost use Rattle.hb_types.specs.Groups.{group_of as group, route as areas_of};

use hb_types::Entry;

/// The group of a key of HASHA, below 1,024.
pub fn group_of(key: i64) -> u16
    requires { FitsSigned w32 key }
    ensures group { result ≡ group key }
    ensures below { result < 1024 }
{
    let hash = (key as i32).cast_unsigned().wrapping_mul(2_654_435_761);
    (hash >> 22) as u16
}

/// The areas in which a key of the group is looked for, in order.
pub fn route(entry: Entry) -> (u16, Option<u16>)
    ensures { areas_of entry ≡ result.0 ∷ option_to_list result.1 }
{
    match entry {
        Entry::At(area) => (area, None),
        Entry::Moving(from, to) => (from, Some(to)),
    }
}
