//! The nodes of a system as one caller reaches them, one call after another on one clock.
#![tactic(auto)]

mod reach;

pub use reach::{MANAGER, Reach, lists_are_of_nodes, nodes_stay};
