//! Worlds that meet the premises of the law of the whole, so that these are not empty.
#![tactic(auto)]
