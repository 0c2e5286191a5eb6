//! What mappings of the bounce-buffer pool ask for, the pool's size, and a processor's mappings by their names.
#![tactic(auto)]

mod kept;
mod pool;
mod request;

pub use kept::{Live, Mappings};
pub use pool::Layout;
pub use request::{TooLong, plan};
