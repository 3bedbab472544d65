//! The manager of waits: who waits for whom, and which wait would close a cycle.
//!
//! A call costs the logarithm of the transactions that were entered, a wait besides that each kept edge at most once, and the stop
//! of a node goes once over the waits that are kept.
#![tactic(auto)]

mod ask;
mod board;
mod known;
mod laws;
mod registry;
mod search;
mod waiting;
mod waits;

pub use board::Board;
pub use laws::{cycles_are_exact, no_cycle_at_first, steps_make_no_cycle};
pub use waits::{Ready, Waits};
