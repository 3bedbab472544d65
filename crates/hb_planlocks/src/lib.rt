//! Which locks a plan of requests asks for, whatever its answers.
#![tactic(auto)]

mod laws;

pub use laws::plans_lock_by_table;
