//! The statements of a session are faithful, with the calls by which a transaction begins and is rolled back.
#![tactic(auto)]

mod laws;

pub use laws::{
    given_up_are_faithful, plans_are_faithful, plans_reply, plans_tell_undone, rolling_back_closes,
    unfinished_are_right,
};
