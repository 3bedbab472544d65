//! The tables, statements and replies of the system, and the definitions that its theorems cite.
#![tactic(auto)]

mod condition;
mod expression;
mod laws;
mod line;
mod reply;
mod script;
mod statement;
mod table;

pub use condition::{Op, Pred};
pub use expression::Expr;
pub use laws::{dictionary_by_place, names_stay, same_by_key};
pub use line::{Line, Work};
pub use reply::Reply;
pub use script::Item;
pub use statement::{Set, Statement, What};
pub use table::{Row, Table};
