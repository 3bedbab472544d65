//! The requests that a node answered, in order, with room taken before for those that may find no memory.
//!
//! A push costs the same whatever stands before it; room is taken in one piece that grows with what is there.
#![tactic(auto)]

mod trail;

pub use trail::Trail;
