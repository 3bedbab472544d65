//! Laws of the base's definitions: each is the contract of a function that does nothing.
#![tactic(auto)]

mod groups;
mod lists;
mod modes;
mod rows;

pub use groups::{each_group_is_below, groups_of_the_vectors, quotas_of_three_areas, quotas_sum};
pub use lists::same_members;
pub use modes::{
    compatible_is_symmetric, compatible_is_the_table, join_is_least, join_of_s_and_ix,
};
pub use rows::{changed_rows_ascend, lookup_in_changed, lookup_in_folded, same_lookups};
