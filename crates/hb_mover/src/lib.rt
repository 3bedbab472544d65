//! A line of pdrbal: checks, batches and finishes by turns, each a transaction of its own, one request a step.
#![tactic(auto)]

mod hints;
mod mover;
mod turns;

pub use mover::{Mover, Progress};
