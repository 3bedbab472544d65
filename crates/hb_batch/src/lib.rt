//! A batch of pdrbal: the keys of a group that moves, each locked in both areas, and moved where its row is there.
//! It asks request by request what the plan of a batch says, and moves nothing where the group's entry is another than the hinted one.
#![tactic(auto)]

mod batch;
mod hint;
mod keys;

pub use batch::{Batch, Part, Taken};
pub use hint::Hint;
