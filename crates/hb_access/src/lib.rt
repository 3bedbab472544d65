//! What a plan asks of one node for one purpose: a lock with what lies under it, or a write, behind the Enlist of its branch.
#![tactic(auto)]

mod access;
mod goal;
mod refusing;
mod taking;
mod usage;

pub use access::{Access, Next, Taken};
pub use goal::{Goal, Got};
pub use refusing::refusal;
pub use usage::{Gate, MOST_LOCKS, Usage};
