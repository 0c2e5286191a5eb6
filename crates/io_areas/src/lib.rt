//! An area of the bounce-buffer pool: what its lock holds.
#![tactic(auto)]

mod area;
mod transfers;

pub use area::Area;
