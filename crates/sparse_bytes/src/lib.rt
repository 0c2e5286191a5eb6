//! The bytes of a block of private memory, kept sparsely.
#![tactic(auto)]

mod run;
mod sparse;

pub use sparse::SparseBytes;

#[cfg(test)]
mod tests;
