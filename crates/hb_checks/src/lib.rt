//! A turn of pdrbal and the checks before it: names keep their numbers, and few keys are told. Laws only.
#![tactic(auto)]

mod laws;

pub use laws::{chains_keep_numbers, checks_were_steps, hints_are_few, steps_keep_numbers};
