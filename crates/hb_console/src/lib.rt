//! The top call: a command over the disks of a system, from its words to its status.
#![tactic(auto)]

mod console;
mod system;
mod telling;

pub use console::console_run;
pub use system::Ended;
