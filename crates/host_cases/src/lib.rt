//! Cases of the host interface: words of descriptors, slots of a task list, sessions of registers, and an engine before a
//! card that answers as it is told.
#![tactic(auto)]

#[cfg(test)]
mod engine_cases;
#[cfg(test)]
mod register_cases;
#[cfg(test)]
mod slot_cases;
#[cfg(test)]
mod word_cases;
