//! The step of a turn of pdrbal, and that a table shown complete is balanced. Laws only.
#![tactic(auto)]

mod laws;

pub use laws::{checks_tell_numbers, completes_are_balanced, turns_step};
