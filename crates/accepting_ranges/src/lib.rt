//! The claims of the processors that accept units at this time.
#![tactic(auto)]

mod accepting;

pub use accepting::{Accepting, Claim};

#[cfg(test)]
mod tests;
