//! The outside: a clock, disks, a source of bytes, a sink for bytes and a gate for threads, by what a contract may say of them.
#![tactic(auto)]

mod clock;
mod disk;
mod failed;
mod fused;
mod gate;
mod sink;
mod source;

pub use clock::Clock;
pub use disk::Disk;
pub use failed::Failed;
pub use fused::Fused;
pub use gate::Gate;
pub use sink::Sink;
pub use source::Source;
