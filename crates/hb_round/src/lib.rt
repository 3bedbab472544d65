//! One thing after another: a lock with what lies under it, in each of some areas of a table.
#![tactic(auto)]

mod areas;
mod laws;
mod round;
mod sweep;

pub use laws::{locking_is_a_round, scanning_is_a_round, walking_is_a_round};
pub use round::{Round, Taken};
pub use sweep::{Sweep, Swept};
