//! Reads the words of a command line with clap. Only the program around it uses this crate. It must not know stores,
//! sessions and what commands do.
#![tactic(auto)]

mod definition;
mod read;

pub use read::{WordsFault, read_words};
