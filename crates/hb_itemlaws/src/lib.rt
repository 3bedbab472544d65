//! The calls and replies of a session's transaction are those of right items, one for each statement.
#![tactic(auto)]

mod laws;

pub use laws::{
    closed_are_own, closed_are_right, closed_had_replies, closed_txns_are_right, given_up_are_own,
    given_up_are_right, given_up_name_owner, transactions_are_own, transactions_are_right,
    transactions_name_owner, txns_are_right, unbegun_are_loose, unbegun_ask_nothing,
};
