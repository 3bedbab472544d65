//! The plans of INSERT, SELECT, UPDATE, DELETE and LOCK TABLE, request by request.
#![tactic(auto)]

mod aims;
mod endings;
mod query;
mod query_plan;

pub use query::Query;
pub use query_plan::{QueryPlan, Taken};
