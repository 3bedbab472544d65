//! Sets of nodes: whether a node is in one, one with a node more, and its nodes in their order.
#![tactic(auto)]

mod sets;

pub use sets::{first_from, has, with};
