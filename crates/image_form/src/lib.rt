//! The forms of an image's superblock and of its gate, and what the pages of an image show.
#![tactic(auto)]

mod gate;
mod page;
mod superblock;

pub use gate::{Gate, read_gate, write_gate};
pub use superblock::{Super, read_super, write_super};
