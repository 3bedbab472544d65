//! What CREATE RDAREA, CREATE TABLE and ADD RDAREA make of the rows that they read: areas and tables, refusals, and changes.
#![tactic(auto)]

mod add_area;
mod areas;
mod back_ends;
mod columns;
mod create_area;
mod create_table;
mod members;
mod putting;
mod tables;

pub use add_area::{add_area_changes, can_spread, early_add_refusal, full_add_refusal};
pub use areas::{Area, find_area, read_areas};
pub use back_ends::back_end_named;
pub use create_area::{area_change, create_area_refusal};
pub use create_table::{
    Draft, early_table_refusal, full_table_refusal, new_members, new_number, table_changes,
};
pub use members::{read_entries, read_members};
pub use tables::{Found, read_tables};
