//! The plans of pdrbal: what a check, a batch and a finish ask of ds and of the back ends, request by request, and what they come to.
//! A check finds the groups of a table that move, a batch moves keys of one, and a finish ends its move where no row is left in the old area.
#![tactic(auto)]

mod check;
mod finish;
mod found;
mod hints;
mod plan;

pub use check::Check;
pub use finish::{Finish, Finished, Part};
pub use found::{Found, Taken};
pub use plan::Plan;
