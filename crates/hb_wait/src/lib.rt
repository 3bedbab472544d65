//! A Lock that waits: what is asked of the manager before the Lock is asked again, and what ends the wait.
//!
//! A pending request takes no memory.
#![tactic(auto)]

mod laws;
mod pending;

pub use laws::waits_follow;
pub use pending::{Heard, Lock, Pending};
