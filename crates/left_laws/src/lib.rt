//! What a loss of power leaves, as contents and as lines of a trace: the two say the same.
#![tactic(auto)]

mod laws;

pub use laws::{
    left_is_shown, next_line_is_shown, other_sectors_are_kept, power_owes_what_is_left,
    shown_is_left,
};
