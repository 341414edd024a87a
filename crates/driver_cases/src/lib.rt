//! The driver and what lies below it, by examples: the cache of epochs, pieces of host memory, descriptors as bytes, and a run
//! with a completion, a fault, a recovery and a refusal.
#![tactic(auto)]

#[cfg(test)]
mod cache;
#[cfg(test)]
mod driver;
#[cfg(test)]
mod memory;
#[cfg(test)]
mod ring;
