//! The words that every text is made of: lines, words parted by single spaces, and numbers and bytes with exactly one
//! spelling each.
#![tactic(auto)]

mod digits;
mod hex_number;
mod line;
mod numbers;
mod words;

pub use digits::{read_hex_bytes, read_hex_word};
pub use hex_number::{read_hex_number, read_hex_u8, read_hex_u32};
pub use line::{Line, one_byte};
pub use numbers::{read_decimal, read_decimal_in, read_hex_byte};
pub use words::{Words, split_once};
