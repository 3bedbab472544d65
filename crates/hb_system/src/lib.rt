//! The nodes of a system over its disks: its opening, and its disks given back.
#![tactic(auto)]

mod disks;
mod made;
mod node;
mod opening;
mod real;
mod refusal;
mod seating;
mod starting;

pub use made::{OfDisks, OfLog};
pub use node::SystemNode;
pub use opening::{Refused, System, open};
pub use refusal::Refusal;
pub use seating::close;
