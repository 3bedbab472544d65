//! What a line of a script says, by the grammar of lines, or the place of the first token that begins no line. One pass over
//! the line's tokens.
#![tactic(auto)]

mod fault;
mod laws;
mod parser;
mod queue;

pub use fault::ParseFault;
pub use laws::{lines_are_plain, lines_are_read, lines_say_one_thing};
pub use parser::parse;
