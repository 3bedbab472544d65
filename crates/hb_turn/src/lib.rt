//! One transaction of pdrbal, a check, a batch or a finish: its keys, its Begin, its plan and its end, one request a step.
#![tactic(auto)]

mod ending;
mod keys;
mod line;
mod stage;
mod starting;
mod stepping;
mod turn;

pub use line::Line;
pub use turn::{Turn, Turned, Went};
