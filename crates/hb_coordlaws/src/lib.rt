//! Laws of the coordinator: what its runs imply. Each is the contract of a function that does nothing.
#![tactic(auto)]

mod laws;

pub use laws::{
    aborted_stays, decided_stays, decided_were_given, decision_stands, decisions_grow,
    decisions_were_asked, faulted_is_final, given_is_reserved, log_is_kept, order_is_kept,
    stopped_is_ordered, transactions_ascend,
};
