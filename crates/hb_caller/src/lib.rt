//! A caller: a session, and the line of pdrbal that it runs in place of statements, one request at a time.
#![tactic(auto)]

mod caller;

pub use caller::{Caller, Progress};
