//! The program: from its arguments to its files, its run and its status.
#![tactic(auto)]

mod program;
mod run;
mod start;

pub use program::{Ended, plain, top};

#[cfg(test)]
mod block_tests;
#[cfg(test)]
mod pool_tests;
#[cfg(test)]
mod tests;
