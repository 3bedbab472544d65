//! The lines of a script: taken from a source in pieces, and what each of them says.
#![tactic(auto)]

mod cut;
mod fault;
mod front;
mod laws;
mod line;
mod reader;
mod said;

pub use fault::LineFault;
pub use laws::{first_line, last_line, no_feed, one_thing};
pub use line::read_line;
pub use reader::LineReader;
pub use said::Said;
