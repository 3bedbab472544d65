//! What the plan of ADD RDAREA does, told of the talk alone.
#![tactic(auto)]

mod laws;

pub use laws::add_area_does;
