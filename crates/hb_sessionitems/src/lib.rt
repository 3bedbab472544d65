//! What a session asks and shows in a transaction is made of right items.
#![tactic(auto)]

mod laws;

pub use laws::{
    closed_sessions_are_own, closed_sessions_are_right, closed_sessions_are_txns,
    given_up_sessions_are_own, given_up_sessions_are_right, given_up_sessions_are_txns,
    sessions_are_own, sessions_are_right, sessions_are_txns, unbegun_sessions_are_loose,
    unbegun_sessions_ask_nothing,
};
