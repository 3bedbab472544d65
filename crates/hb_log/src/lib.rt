//! A log whose records count once their gate is opened.
#![tactic(auto)]

mod armed;
mod fault;
mod force;
mod laws;
mod log;
mod start;
mod walk;

pub use fault::LogFault;
pub use laws::readings_are_one;
pub use log::Log;
