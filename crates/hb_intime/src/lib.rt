//! What was shown in time stands in the order of its numbers. Laws only.
#![tactic(auto)]

mod laws;

pub use laws::runs_are_explained;
