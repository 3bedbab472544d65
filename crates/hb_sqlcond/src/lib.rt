//! Expressions and conditions, token by token.
#![tactic(auto)]

mod expr_parser;
mod laws;
mod operand;
mod pred_parser;
mod prefix;
mod stack;

pub use expr_parser::ExprParser;
pub use laws::{conditions_are_read, expressions_are_read};
pub use pred_parser::PredParser;
