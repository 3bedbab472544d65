//! The lock table of a server: who holds which mode on which path, and who stands in the way of a lock.
//!
//! A take costs the logarithm of the table and the holders of its path. A release does so for each path of its transaction,
//! and so does the list of its locks.
#![tactic(auto)]

mod holders;
mod lock_table;
mod paths;
mod table;
mod take;

pub use lock_table::LockTable;
pub use take::Take;
