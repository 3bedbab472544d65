//! A script over nodes and sessions, act by act: each line is done, those that wait are asked, and what was added is put.
#![tactic(auto)]

mod acts;
mod over;
mod putting;
mod run;
mod stop;
mod words;

pub use over::run_nodes;
pub use putting::put_line;
pub use run::run_script;
pub use stop::{Stop, status, status_word};
pub use words::back_ends;
