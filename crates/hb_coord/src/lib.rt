//! The coordinator: it gives transactions their numbers, decides them, and keeps its decisions in a log.
//!
//! A call costs the logarithm of the transactions that it knows. A Begin or a Decide makes four device calls at most, a Start
//! reads the log once, and no other call touches the disk.
#![tactic(auto)]

mod coordinator;
mod forcing;
mod kept;
mod ledger;
mod recorded;
mod running;
mod start;
mod state;
mod turn;

pub use coordinator::Coordinator;
pub use state::State;
