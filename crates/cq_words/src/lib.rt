//! Words in bytes, the lowest byte first, and the fields of a word. Registers, descriptors and the tables on flash are
//! all read and written by these calls.
#![tactic(auto)]

mod fields;
mod table;
mod words;

pub use fields::{bits, with_bits};
pub use table::{BitField, FieldValue};
pub use words::{get32, get64, put32, put64};
