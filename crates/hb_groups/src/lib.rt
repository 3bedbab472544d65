//! Hash groups: the group of a key, in which area a group goes first, and which groups move where an area is added.
#![tactic(auto)]

mod assignment;
mod group;
mod laws;

pub use assignment::{first_assignment, quota, reassign};
pub use group::{group_of, route};
pub use laws::{even_share_is_enough, first_entries_are_even, quota_is_even};
