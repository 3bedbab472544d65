//! What sessions, pdrbal and settling drivers ask is what a caller may ask, whatever it is answered.
#![tactic(auto)]

mod laws;

pub use laws::{movers_obey, settlers_obey, transactions_obey};
