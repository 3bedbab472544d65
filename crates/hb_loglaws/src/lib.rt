//! Laws of locks and of a server's log, told of these alone. Each is the contract of a function that does nothing.
#![tactic(auto)]

mod laws;

pub use laws::{
    locks_exclude, points_stay, redo_is_of_commits, right_logs_are_halves, right_logs_say,
    settled_is_held,
};
