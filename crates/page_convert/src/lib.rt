//! Conversions of pages between private and shared, and their way back to the host.
#![tactic(auto)]

mod convert;
mod laws;

pub use convert::{to_host, to_private, to_shared};
pub use laws::block_is_converted;

#[cfg(test)]
mod tests;
