//! A session: it runs the statements that it is given, one request at a time, and ends its transactions.
#![tactic(auto)]

mod ending;
mod laws;
mod session;
mod stage;
mod starting;
mod stepping;

pub use laws::{ends_follow, runs_follow, transactions_follow};
pub use session::{GiveFault, Progress, Session};
