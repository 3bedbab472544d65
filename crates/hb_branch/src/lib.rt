//! The changes that one transaction made on a server and that are not applied yet, and the rows as the transaction sees them.
//!
//! The changes stand by ascending place, one a place. A read costs the logarithm of them; a put costs it too where it goes behind the
//! last place or onto one that is there, and else moves those behind it. A scan goes once over the rows and once over the changes.
#![tactic(auto)]

mod branch;
mod merge;
mod under;

pub use branch::Branch;
