//! What one line of a script does to the sessions of a run.
#![tactic(auto)]

mod doing;
mod giving;
mod own;
mod stepping;

pub use doing::do_line;
pub use own::Own;
