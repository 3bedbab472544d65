//! A server in memory, without its log, its disks and its rows: the branches of its transactions, their locks and the floor.
//!
//! Each call leads a state of the server to the next. A branch's changes stay with it until it ends: a vote and an end take no memory.
//! Each costs the logarithm of the branches and of the lock table, and what its locks and changes cost.
#![tactic(auto)]

mod climb;
mod cover;
mod ends;
mod engine;
mod refusal;
mod restore;
mod slot;

pub use ends::Standing;
pub use engine::Engine;
pub use refusal::Refusal;
pub use slot::Slot;
