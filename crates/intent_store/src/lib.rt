//! The sectors of an image on a flash array: read, programmed in place, and programmed so that a sector is old or new
//! whatever befalls.
#![tactic(auto)]

mod ends;
mod intent;
mod pages;

pub use ends::{StartEnd, StoreEnd};
pub use intent::Intent;
