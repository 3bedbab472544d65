//! What a statement on a table reads before it decides: the entries that tell where rows lie, and then the rows.
#![tactic(auto)]

mod aim;
mod reading;
mod routing;

pub use aim::Aim;
pub use reading::{Brought, Reading, Taken};
