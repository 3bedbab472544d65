//! A store whose points are images of all rows.
//!
//! A row is found in the logarithm of the rows; a list costs its rows and that logarithm. Room for a change is a slot in the
//! map of rows, so that a change takes no memory.
#![tactic(auto)]

mod decode;
mod device;
mod encode;
mod fill;
mod find;
mod finish;
mod flush;
mod header;
mod listing;
mod load;
mod map;
mod next;
mod opened;
mod place;
mod rooms;
mod slots;
mod valid;
mod whole;

pub use slots::Slots;
pub use whole::Whole;
