//! The manager of waits as a node: it answers its requests, and keeps a trail of those that may find no memory.
//!
//! A call costs what it costs at the board, and room for one more entry.
#![tactic(auto)]

mod asking;
mod manager;
mod node;

pub use manager::Manager;
