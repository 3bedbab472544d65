// Requests with their answers: as a node's trail has them, and as a caller's list has them.

use crate::answer::Answer;
use crate::names::NodeName;
use crate::request::Request;

/// One request that a node answered, between two moments of the clock.
#[derive(Drop)]
pub struct TrailEntry {
    pub caller: u8,
    pub nth: u64,
    pub request: Request,
    pub answer: Answer,
    pub from: u128,
    pub to: u128,
}

/// One request of a caller.
#[derive(Drop)]
pub struct Call {
    pub node: NodeName,
    pub request: Request,
    pub answer: Answer,
}
