//! What an up server answers without its log and its disks: locks, reads and writes of its transactions, and refusals.
//!
//! A point read costs the logarithm of the store and of the branch's changes, and copies its row; a scan costs the rows that it gives
//! and the branch's changes.
#![tactic(auto)]

mod reads;
mod refusals;
mod requests;

pub use requests::answer;
