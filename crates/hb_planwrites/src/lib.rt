//! What the plans of the statements on a table's rows do, told of the talk alone.
#![tactic(auto)]

mod laws;

pub use laws::{delete_does, insert_does, select_does};
