//! What a turn of pdrbal does to the rows of a system, told of its calls alone.
#![tactic(auto)]

mod laws;

pub use laws::{batch_moves, check_tells, finish_settles};
