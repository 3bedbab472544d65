//! A disk, a source and a sink in memory, whose contents and failures contracts can name.
#![tactic(auto)]

mod call;
mod memdisk;
mod replay;
mod sink;
mod source;

pub use memdisk::MemDisk;
pub use sink::MemSink;
pub use source::MemSource;
