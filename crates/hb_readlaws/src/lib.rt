//! Laws of what a server's reads answer, over its runs. Each is the contract of a function that does nothing.
#![tactic(auto)]

mod laws;

pub use laws::{
    groups_are_clean, groups_are_free, groups_are_ordered, last_writers_stood, reads_are_clean,
    rows_are_ordered, spaces_are_clean, spaces_are_free, spaces_are_ordered,
};
