//! The bitmap of unaccepted units: what the boot stub makes of a memory map, the guarded units of a range, and runs of set bits.
#![tactic(auto)]

mod bitmap;
mod bytes;
mod fault;
mod fit;
mod guard;
mod ram;
mod stub;
mod table;

pub use bitmap::Bitmap;
pub use fault::{BadBit, TableFault};
pub use stub::early;
pub use table::read_table;
