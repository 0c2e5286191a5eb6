//! The files that the arguments name: which are refused, why, and with which line a run then ends.
#![tactic(auto)]

mod input;
mod stop;

pub use input::{Input, read_input};
pub use stop::{Cause, InputFile, Stop, print_stop};
