//! The loss of power on the path: the lines of a cut, the openings behind it, and what is left of the sectors.
#![tactic(auto)]

mod events;
mod left;
mod loss;
mod lost;
mod opening;
mod pending;

pub use events::{card_event, flush_all, phase_cut};
pub use loss::cut;
pub use pending::Pending;
