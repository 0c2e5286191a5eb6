//! Acceptance of pages by sizes: 1 GiB, 2 MiB and 4 KiB.
#![tactic(auto)]

mod accept;

pub use accept::{RunEnd, accept_run, most_calls};
