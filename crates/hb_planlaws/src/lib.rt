//! What the plan of a statement does over rows, told of the talk alone.
#![tactic(auto)]

mod laws;

pub use laws::{dictionary_tells, lock_table_does, select_by_key_does};
