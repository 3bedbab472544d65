//! How a transaction ends, request by request: the votes, the decision and its carrying out, or a rolling back.
//!
//! A driver keeps no list but that of the votes, whose room it takes when it is made; after that it takes no memory.
#![tactic(auto)]

mod ballot;
mod driver;
mod outcome;
mod settling;
mod stage;

pub use driver::{Driver, Step};
pub use outcome::Outcome;
pub use settling::{Resolved, resolve};
