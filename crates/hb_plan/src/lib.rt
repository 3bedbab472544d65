//! The plan of each statement but COMMIT and ROLLBACK, request by request.
#![tactic(auto)]

mod begins;
mod machine;
mod stage;

pub use machine::Plan;
pub use stage::Taken;
