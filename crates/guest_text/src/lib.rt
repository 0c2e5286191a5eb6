//! The printed text of a run, put on a sink.
#![tactic(auto)]

mod print;

pub use print::put_run;
