//! Laws of one server: what its runs imply. Each is the contract of a function that does nothing.
#![tactic(auto)]

mod laws;

pub use laws::{
    commits_stand, doubts_stay, locks_are_kept, log_is_kept, now_is_redo, records_were_asked,
    room_is_kept, votes_stand,
};
