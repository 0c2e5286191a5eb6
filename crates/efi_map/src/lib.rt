//! The map file: a guest's memory descriptors and the levels at which its host has mapped pages.
#![tactic(auto)]

mod descriptors;
mod fault;
mod fields;
mod hosts;
mod reading;
mod starts;
mod writing;

pub use fault::MapFault;
pub use reading::read_map;
pub use writing::write_map;
