//! What the plan of CREATE TABLE does, told of the talk alone.
#![tactic(auto)]

mod laws;

pub use laws::create_table_does;
