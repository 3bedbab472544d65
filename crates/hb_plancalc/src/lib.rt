//! What a plan of requests comes to, over rows and whatever its answers.
#![tactic(auto)]

mod laws;

pub use laws::plans_count;
