// Reads places between two ranks.
ghost use Rattle.std.specs.Prelude.{◌≡◌, ◌≤◌, ◌<◌, ◌-◌, min};
ghost use Rattle.hb_codec.specs.Readers.{Gives};
ghost use Rattle.hb_codec.specs.PlaceReaders.{key_rank as rank_of_key, key_of as key_at_rank, space_rank as rank_of_space, group_rank as rank_of_group, place_rank as rank_of_place, places, space_in, group_in, place_in};

use crate::fault::ReadFault;
use crate::reading::number_at;
use hb_types::{Place, Space};

// How many keys a group has.
const KEYS: u128 = 18_446_744_073_709_551_616;

const TURN: u64 = 9_223_372_036_854_775_808;

// The rank of the last place.
pub(crate) const LAST_PLACE: u128 = 5_192_296_858_534_827_628_530_496_329_220_095;

fn key_rank(key: i64) -> u64
    ensures { result ≡ rank_of_key key }
{
    key.cast_unsigned().wrapping_add(TURN)
}

fn key_of(rank: u64) -> i64
    ensures { result ≡ key_at_rank rank }
{
    rank.wrapping_add(TURN).cast_signed()
}

pub(crate) fn space_rank(space: Space) -> u64
    ensures { result ≡ rank_of_space space }
{
    space.area as u64 * 65_536 + space.table as u64
}

pub(crate) fn group_rank(space: Space, group: u16) -> u64
    ensures { result ≡ rank_of_group space group }
{
    space_rank(space) * 65_536 + group as u64
}

pub(crate) fn place_rank(place: Place) -> u128
    ensures rank { result ≡ rank_of_place place }
    ensures below { result < places }
{
    group_rank(place.space, place.group) as u128 * KEYS + key_rank(place.key) as u128
}

fn inside(bound: u64, base: u64) -> u64
    ensures { result ≡ min (bound - base) 65535 }
{
    bound.saturating_sub(base).min(65_535)
}

fn inside_group(bound: u128, base: u128) -> u64
    ensures { result ≡ min (bound - base) 18446744073709551615 }
{
    bound.saturating_sub(base).min(KEYS - 1) as u64
}

#[tactic(auto, unfolding(crate::specs::PlaceReaders::space_in))]
pub(crate) fn space_at(low: u64, high: u64, bytes: &[u8]) -> Result<(Space, &[u8]), ReadFault>
    requires { high < 4294967296 }
    ensures { Gives (λ x. (x.0, x.1.now)) result (space_in low high bytes.now) }
{
    let (area, rest) = number_at(0, 2, low / 65_536, high / 65_536, bytes)?;
    let base = area * 65_536;
    let (table, rest) = number_at(0, 2, inside(low, base), inside(high, base), rest)?;
    let space = Space {
        area: area as u16,
        table: table as u16,
    };
    Ok((space, rest))
}

#[tactic(auto, unfolding(crate::specs::PlaceReaders::group_in))]
pub(crate) fn group_at(
    low: u64,
    high: u64,
    bytes: &[u8],
) -> Result<((Space, u16), &[u8]), ReadFault>
    requires { high < 281474976710656 }
    ensures { Gives (λ x. (x.0, x.1.now)) result (group_in low high bytes.now) }
{
    let (space, rest) = space_at(low / 65_536, high / 65_536, bytes)?;
    let base = space_rank(space) * 65_536;
    let (group, rest) = number_at(0, 2, inside(low, base), inside(high, base), rest)?;
    Ok(((space, group as u16), rest))
}

#[tactic(auto, unfolding(crate::specs::PlaceReaders::place_in))]
pub(crate) fn place_at(low: u128, high: u128, bytes: &[u8]) -> Result<(Place, &[u8]), ReadFault>
    requires { high < places }
    ensures { Gives (λ x. (x.0, x.1.now)) result (place_in low high bytes.now) }
{
    let ((space, group), rest) = group_at((low / KEYS) as u64, (high / KEYS) as u64, bytes)?;
    let base = group_rank(space, group) as u128 * KEYS;
    let (key, rest) = number_at(
        128,
        8,
        inside_group(low, base),
        inside_group(high, base),
        rest,
    )?;
    let key = key_of(key);
    Ok((Place { space, group, key }, rest))
}
