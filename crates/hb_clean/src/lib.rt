//! No row was shown that another transaction had not committed. Laws only.
#![tactic(auto)]

mod laws;

pub use laws::rows_are_clean;
