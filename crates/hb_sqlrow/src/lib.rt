//! What a statement makes of rows: which it chooses, what it shows of them, and what it assigns.
#![tactic(auto)]

mod assignments;
mod choosing;
mod fault;
mod laws;
mod points;
mod showing;

pub use assignments::assigned;
pub use choosing::{chooses, chosen};
pub use fault::SetFault;
pub use laws::rows_are_narrow;
pub use points::{key_name, key_of, point, point_key};
pub use showing::shown;
