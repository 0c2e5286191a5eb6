//! Runs of a guest's processors from a booted world, by turns and on threads, to what is recorded of them.

#![tactic(auto)]

mod by_turns;
#[cfg(test)]
mod gate_tests;
mod on_threads;
mod recording;
mod seats;
#[cfg(test)]
mod tests;

pub use by_turns::turns;
pub use on_threads::run_threads;
