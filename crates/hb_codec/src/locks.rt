// Reads locks.
ghost use Rattle.std.specs.Prelude.{◌≡◌, ◌≤◌, ℕ};
ghost use Rattle.hb_codec.specs.Readers.{Gives, many_in};
ghost use Rattle.hb_codec.specs.LockReaders.{mode_of as mode_at, first_level as first_level_at, path_rank as rank_of_path, whole_in, group_path_in, key_path_in, path_in, lock_in, lock_after};

use crate::fault::ReadFault;
use crate::places::{LAST_PLACE, group_at, group_rank, place_at, place_rank, space_at, space_rank};
use crate::reading::number_at;
use hb_types::{Held, Mode, Path};
use sqlite_items::Items;
use std::alloc::Global;

// How many paths stand below the first group, and below the first key.
const GROUPS_FROM: u128 = 4_294_967_296;

const KEYS_FROM: u128 = 281_479_271_677_952;

fn mode_of(byte: u64) -> Mode
    ensures { result ≡ mode_at byte }
{
    if byte == 0 {
        Mode::IS
    } else if byte == 1 {
        Mode::IX
    } else if byte == 2 {
        Mode::S
    } else if byte == 3 {
        Mode::SIX
    } else {
        Mode::X
    }
}

fn first_level(least: u128) -> u64
    ensures { result ≡ first_level_at least }
{
    if least < GROUPS_FROM {
        1
    } else if least < KEYS_FROM {
        2
    } else {
        3
    }
}

fn path_rank(path: Path) -> u128
    ensures { result ≡ rank_of_path path }
{
    match path {
        Path::Whole(space) => space_rank(space) as u128,
        Path::Group(space, group) => GROUPS_FROM + group_rank(space, group) as u128,
        Path::Key(place) => KEYS_FROM + place_rank(place),
    }
}

#[tactic(auto, unfolding(crate::specs::LockReaders::whole_in))]
fn whole_at(least: u128, bytes: &[u8]) -> Result<(Path, &[u8]), ReadFault>
    ensures { Gives (λ x. (x.0, x.1.now)) result (whole_in least bytes.now) }
{
    let least = least.min(GROUPS_FROM - 1) as u64;
    let (space, rest) = space_at(least, 4_294_967_295, bytes)?;
    let (_, rest) = number_at(0, 10, 0, 0, rest)?;
    Ok((Path::Whole(space), rest))
}

#[tactic(auto, unfolding(crate::specs::LockReaders::group_path_in))]
fn group_path_at(least: u128, bytes: &[u8]) -> Result<(Path, &[u8]), ReadFault>
    ensures { Gives (λ x. (x.0, x.1.now)) result (group_path_in least bytes.now) }
{
    let least = least.saturating_sub(GROUPS_FROM).min(281_474_976_710_655) as u64;
    let ((space, group), rest) = group_at(least, 281_474_976_710_655, bytes)?;
    let (_, rest) = number_at(0, 8, 0, 0, rest)?;
    Ok((Path::Group(space, group), rest))
}

#[tactic(auto, unfolding(crate::specs::LockReaders::key_path_in))]
fn key_path_at(left: usize, least: u128, bytes: &[u8]) -> Result<(Path, &[u8]), ReadFault>
    requires { left ≤ 4294967295 }
    ensures { Gives (λ x. (x.0, x.1.now)) result (key_path_in left least bytes.now) }
{
    let least = least.saturating_sub(KEYS_FROM);
    let (place, rest) = place_at(least, LAST_PLACE - left as u128, bytes)?;
    Ok((Path::Key(place), rest))
}

#[tactic(auto, unfolding(crate::specs::LockReaders::path_in))]
fn path_at(level: u64, left: usize, least: u128, bytes: &[u8]) -> Result<(Path, &[u8]), ReadFault>
    requires { left ≤ 4294967295 }
    ensures { Gives (λ x. (x.0, x.1.now)) result (path_in level left least bytes.now) }
{
    if level == 1 {
        return whole_at(least, bytes);
    }
    if level == 2 {
        return group_path_at(least, bytes);
    }
    key_path_at(left, least, bytes)
}

// A lock before so many others.
#[tactic(auto, unfolding(crate::specs::LockReaders::lock_in))]
fn lock_at(left: usize, least: u128, bytes: &[u8]) -> Result<(Held, &[u8]), ReadFault>
    requires { left ≤ 4294967295 }
    ensures { Gives (λ x. (x.0, x.1.now)) result (lock_in left least bytes.now) }
{
    let (level, rest) = number_at(0, 1, first_level(least), 3, bytes)?;
    let (mode, rest) = number_at(0, 1, 0, 4, rest)?;
    let (path, rest) = path_at(level, left, least, rest)?;
    let mode = mode_of(mode);
    Ok((Held { path, mode }, rest))
}

fn least_after(lock: Held) -> u128
    ensures { (n least : ℕ) → result ≡ lock_after n least lock }
{
    path_rank(lock.path) + 1
}

pub(crate) fn locks_at(
    alloc: Global,
    count: usize,
    bytes: &[u8],
) -> Result<(Items<Held>, &[u8]), ReadFault>
    requires { count ≤ 4294967295 }
    ensures { Gives (λ x. (x.0, x.1.now)) result (many_in lock_in lock_after count 0 bytes.now) }
{
    let mut locks = Vec::with_capacity(alloc, count.min(bytes.len() / 16))?;
    let mut left = count;
    let mut least = 0;
    let mut rest = bytes;
    while left > 0 {
        left -= 1;
        let (lock, after) = lock_at(left, least, rest)?;
        least = least_after(lock);
        locks.push(lock)?;
        rest = after;
    }
    Ok((Items::from_vec(locks), rest))
}
