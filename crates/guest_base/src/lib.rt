//! Plain types and limits of the memory layer of an encrypted guest.
#![tactic(auto)]

pub mod limits;
mod list;
mod memory;
mod transfer;

pub use list::{Bytes, Items};
pub use memory::{Block, CpuNo, HostRun, Level, Page, PageRun, PageState, Pages, Unit, Units};
pub use transfer::{Align, Direction, Request, SlotRun};

#[cfg(test)]
mod tests;
