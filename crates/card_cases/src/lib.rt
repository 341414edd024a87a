//! Tests of the card's crates: the words of commands and of the extended CSD, the store, the card, and the link to it.
#![tactic(auto)]

#[cfg(test)]
mod cards;
#[cfg(test)]
mod images;
#[cfg(test)]
mod links;
#[cfg(test)]
mod stores;
#[cfg(test)]
mod words;
