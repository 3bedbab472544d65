//! Each transaction has one caller. Laws only.
#![tactic(auto)]

mod laws;

pub use laws::{asked_of_given, commits_are_told, given_are_new, one_owner, rollbacks_are_told};
