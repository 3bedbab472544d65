//! CREATE RDAREA, CREATE TABLE and ADD RDAREA, request by request.
#![tactic(auto)]

mod add_area;
mod create_area;
mod create_table;
mod defining;
mod stage;
mod steps;

pub use defining::{Defining, Taken};
