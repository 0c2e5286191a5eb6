//! The page allocator: free blocks, which split and merge, and blocks that wait for their acceptance.
#![tactic(auto)]

mod allocator;
mod buddy_block;
mod sorted;
mod store;

pub use store::Blocks;

#[cfg(test)]
mod tests;
