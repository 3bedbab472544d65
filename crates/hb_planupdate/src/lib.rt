//! What the plan of an UPDATE does, told of the talk alone.
#![tactic(auto)]

mod laws;

pub use laws::update_does;
