//! The memory of a guest: what its lock holds.
#![tactic(auto)]

mod blocks;
mod claims;
mod entries;
mod memory;
mod pages;
mod units;

pub use memory::{Begin, Look, Memory, Reported};
pub use pages::{clear_run, run_pages, stopped_page};
pub use units::has_unaccepted;
