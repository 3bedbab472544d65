//! The real outside: a file as a disk, a reader as a source, a writer as a sink, a gate that is open, and the numbers of the
//! standard streams. The first three tell nothing of their content, count each error of the system and each failure of their
//! own, and keep the cause of the first.
#![tactic(auto)]

mod file_disk;
mod files;
mod open_gate;
mod stdin;
mod stdout;
mod streams;

pub use file_disk::FileDisk;
pub use open_gate::OpenGate;
pub use stdin::Stdin;
pub use stdout::Stdout;
pub use streams::Streams;
