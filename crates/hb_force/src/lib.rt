//! A server that is up: its log, its rows and its branches. It answers each request but Start and Stop, and forces the records of
//! votes and ends before it answers.
//!
//! A Prepare, a Commit or a Rollback of a branch that voted makes four device calls; no other request touches the disk. Beside what
//! the lower layers cost, a Prepare copies the branch's changes once, counts the branches, and reads the whole lock table for the
//! branch's locks; a Commit costs the logarithm of the store for each change. A Commit and a Rollback take no memory.
#![tactic(auto)]

mod appending;
mod applying;
mod commit;
mod frames;
mod lengths;
mod prepare;
mod refusal;
mod rollback;
mod running;

pub use running::Running;
