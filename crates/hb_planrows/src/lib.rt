//! What a plan makes of the rows that it read: the table of a name, entries, rows with their places, and refusals.
#![tactic(auto)]

mod entries;
mod inserts;
mod lying;
mod ranks;
mod sizes;
mod tables;

pub use entries::{areas_in_rows, entry_in, entry_in_row};
pub use inserts::{insert_refusal, inserted_key, inserted_row};
pub use lying::{Lying, rows_lying};
pub use sizes::change_size;
pub use tables::{find_table, table_in_row};
