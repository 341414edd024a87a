//! One trace: without faults, the base contents and the plan leave one trace to a good end.
#![tactic(auto)]

mod laws;

pub use laws::traces_are_one;
