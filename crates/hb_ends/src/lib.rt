//! What was shown of the ends of transactions is so, and each decision has its owner. Laws only.
#![tactic(auto)]

mod laws;

pub use laws::ends_are_shown;
