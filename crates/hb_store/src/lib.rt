//! A store of rows, by its contract: one finite map from places to rows, and synchronization points of it on a disk.
#![tactic(auto)]

mod fault;
mod point;
mod store;

pub use fault::StoreFault;
pub use point::{Flushed, Point};
pub use store::Store;
