//! What a moment leaves of a run: the history up to it and the callers' lists, with the first of its lines. Laws only.
#![tactic(auto)]

mod laws;

pub use laws::{
    answers_are_of_nodes, begins_may_fail, cuts_are, cuts_are_histories, cuts_are_of_system,
    first_lines_in_order, has_lists, histories_merge, lists_keep_within, moments_are_callings,
    parts_are_bound,
};
