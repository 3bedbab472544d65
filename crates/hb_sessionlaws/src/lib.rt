//! What a session asks is what a caller may ask, whatever it is answered.
#![tactic(auto)]

mod laws;

pub use laws::{ended_sessions_obey, lives_obey, sessions_obey, steps_sit};
