//! What stands next to the flash and to the files: arrays, the forms of an image, its opening, sources and sinks. These
//! tests say what no contract can: bytes in a real file, outside vectors, and readers and writers that fail.
#![tactic(auto)]

#[cfg(test)]
mod arrays;
#[cfg(test)]
mod edges;
#[cfg(test)]
mod forms;
#[cfg(test)]
mod images;
