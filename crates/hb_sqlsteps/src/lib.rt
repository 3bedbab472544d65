//! A script's line token by token: how far it has come, whether it goes on with a token, and what it says where it is whole.
#![tactic(auto)]

mod columns;
mod create_table;
mod definitions;
mod line;
mod lists;
mod marks;
mod position;
mod rebalance;
mod rows;
mod select;
mod sets;
mod work;

pub use line::Line;
pub use marks::Mark;
