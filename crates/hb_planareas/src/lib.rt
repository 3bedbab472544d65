//! What the plan of CREATE RDAREA does, told of the talk alone.
#![tactic(auto)]

mod laws;

pub use laws::create_area_does;
