//! A run by steps: the sessions of a script over the nodes of a system, one request at a time.
#![tactic(auto)]

mod advancing;
mod closing;
mod counts;
mod fault;
mod finishing;
mod giving;
mod names;
mod seat;
mod sessions;

pub use counts::BackEnds;
pub use fault::StepFault;
pub use seat::Seat;
pub use sessions::Sessions;
