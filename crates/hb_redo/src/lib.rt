//! What a server does with its log when it starts: from the rows of its synchronization point it redoes the records behind it.
//!
//! A Commit's changes are made in the store, and a branch that stays in doubt is put back into the engine with its locks and changes.
//! A redo costs the logarithm for each record, lock and change, and copies a change once at most.
#![tactic(auto)]

mod apply;
mod ends;
mod fault;
mod pending;
mod restart;

pub use fault::RedoFault;
pub use pending::Pending;
pub use restart::{Restarted, redo};
