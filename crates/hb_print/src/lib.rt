//! The text of every line of a transcript.
#![tactic(auto)]

mod counts;
mod edges;
mod lines;
mod named;
mod nodes;
mod owners;
mod places;
mod put;
mod records;
mod words;

pub use lines::print;
