//! What boot makes of a map.
#![tactic(auto)]

mod accept;
pub mod cut;
mod fault;
pub mod place;
mod share;
mod stages;
mod store;
mod world;

pub use fault::BootFault;
pub use world::{World, boot};
