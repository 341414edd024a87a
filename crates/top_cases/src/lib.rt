//! The commands over sources, sinks and arrays that fail, are cut, or take a byte at a time.
#![tactic(auto)]

#[cfg(test)]
mod tests;
