//! Where the rows come from that a plan of requests shows and writes, whatever its answers.
#![tactic(auto)]

mod laws;

pub use laws::plans_are_sourced;
