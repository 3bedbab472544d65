//! Right items of one transaction are that transaction run alone: the step of the law of composition from items to states. Laws only.
#![tactic(auto)]

mod laws;

pub use laws::right_items_run_alone;
