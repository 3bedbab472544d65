//! Values of expressions and conditions on a row. Nothing is copied on the way: texts stay where they stand.
#![tactic(auto)]

mod borrowed;
mod conditions;
mod expressions;
mod fault;
mod laws;

pub use borrowed::Borrowed;
pub use conditions::holds;
pub use expressions::{place_of, value, value_ref};
pub use fault::{ExprFault, Overflow};
pub use laws::overflow_is_a_number_outside;
