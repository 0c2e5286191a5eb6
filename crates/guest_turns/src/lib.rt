//! Processors that run by turns on one thread.

#![tactic(auto)]

mod run;
mod turn;

pub use run::turns;
