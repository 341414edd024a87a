//! What only a run of the texts' readers and writers can say: the forms of each grammar as they are written down, limits,
//! printed lines and sinks that fail.
#![tactic(auto)]

#[cfg(test)]
mod contents;
#[cfg(test)]
mod fault_texts;
#[cfg(test)]
mod printed;
#[cfg(test)]
mod request_texts;
#[cfg(test)]
mod scripts;
