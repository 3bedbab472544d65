//! The writes of a statement, one after another, and its reply behind them.
#![tactic(auto)]

mod counting;
mod writing;

pub use counting::counted_one;
pub use writing::{Begun, Taken, Writing, node_of};
