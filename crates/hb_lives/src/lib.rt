//! What a session asks and shows in its whole life, as the law of composition wants it.
#![tactic(auto)]

mod laws;

pub use laws::{
    added_are_of_system, cut_commits_are_bare, lists_are_told, lives_are_stretches, lives_are_told,
    stretches_are_txns, unfinished_are_right,
};
