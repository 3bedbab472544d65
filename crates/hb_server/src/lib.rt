//! A server: the dictionary server or a back end, with its log disk and its area disk, stopped or up.
//!
//! A Start reads the valid synchronization point and the records behind it. A Prepare, a Commit or a Rollback of a branch that voted
//! makes four device calls at most, and no other request touches a disk. Nothing in a request grows with the length of the log or of
//! the trail but the Start's reading of the log.
#![tactic(auto)]

mod arming;
mod copies;
mod node;
mod ready;
mod room;
mod server;
mod start;
mod state;
mod turn;

pub use server::Server;
pub use state::{Resting, Serving, State};
