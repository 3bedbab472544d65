//! The front end as a node: the coordinator, and a trail of its requests.
//!
//! A call costs what it costs at the coordinator, and room for an entry or two: a Begin takes the room of its Abort, a Start that of
//! its Stop. An Abort that ends nothing is left out of the trail.
#![tactic(auto)]

mod again;
mod front;
mod node;
mod serving;

pub use front::Front;
