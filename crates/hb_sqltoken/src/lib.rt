//! The tokens of a script's line, each with its place, in one pass over the line.
#![tactic(auto)]

mod kinds;
mod laws;
mod lines;
mod name;
mod number;
mod symbol;
mod text;
mod token;
mod words;

pub use laws::{places_ascend_within_the_line, tokens_make_up_the_line, words_stand_in_any_case};
pub use lines::tokens;
pub use token::{Placed, Token, Word};
