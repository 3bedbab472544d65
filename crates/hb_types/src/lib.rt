//! Names, places, modes, log items, requests and answers: plain data that every other crate speaks of, and its grammar.
#![tactic(auto)]

mod answer;
mod change;
mod copying;
mod entry;
mod lock;
mod memory;
mod names;
mod places;
mod request;
mod text;
mod trail;
mod value;

pub use answer::{Answer, Edge};
pub use change::{Change, LogItem, Placed, Stored};
pub use copying::{Copied, copied_items, copied_option};
pub use entry::Entry;
pub use lock::{Held, Holder, Mode, compatible, join};
pub use memory::NoMemory;
pub use names::{Left, NodeName, Number, Owner, Tx};
pub use places::{Path, Place, Space};
pub use request::{Request, Vote};
pub use text::{Bytes, Text};
pub use trail::{Call, TrailEntry};
pub use value::{Column, Value};
