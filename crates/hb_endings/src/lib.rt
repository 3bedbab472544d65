//! How a statement on a table ends once its rows are read: its refusal, its reply, or its changes with the reply behind them.
#![tactic(auto)]

mod changes;
mod choosing;
mod early;
mod ending;
mod fitting;
mod inserting;
mod updates;

pub use early::{early_select, early_update};
pub use ending::{Ending, delete_ending, select_ending, update_ending};
pub use inserting::insert_ending;
