//! Units: what contents, marks, mixes and the store say of units of several sectors, and that units of one sector are sectors.
#![tactic(auto)]

mod laws;

pub use laws::{units_have_room, units_hold_together, units_of_one_are_sectors};
