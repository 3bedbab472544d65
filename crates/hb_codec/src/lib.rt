//! The bytes of rows, changes and records, both ways.
#![tactic(auto)]

mod changes;
mod fault;
mod framed;
mod laws;
mod locks;
mod places;
mod reading;
mod records;
mod rows;
mod writing;

pub use changes::decode_change;
pub use fault::CodecFault;
pub use framed::Framed;
pub use laws::{changes_have_one_form, records_have_one_form, rows_have_one_form};
pub use records::decode_record;
pub use rows::decode_row;
pub use writing::{encode_change, encode_record, encode_row};
