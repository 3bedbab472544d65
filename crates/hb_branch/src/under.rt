// Which places lie under a path.
ghost use Rattle.std.specs.Prelude.{◌≡◌};
ghost use Rattle.hb_types.specs.Places.{is_under as lies_under};

use hb_types::{Path, Place};

pub(crate) fn is_under(path: &Path, place: &Place) -> bool
    ensures { result ≡ lies_under path.now place.now }
{
    match path {
        Path::Whole(space) => *space == place.space,
        Path::Group(space, group) => *space == place.space && *group == place.group,
        Path::Key(key) => *key == *place,
    }
}
