//! The words of a run: the files that they name, and their options.
#![tactic(auto)]

mod mode;
mod numbers;
mod place;
mod told;
mod words;

pub use words::{MAX_SCRIPTS, Names, read_words};
