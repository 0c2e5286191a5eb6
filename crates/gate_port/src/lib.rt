//! Ports in memory that come in pairs, for tests of processors that run side by side.
//!
//! Each port's accept calls are done only once the other port's processor has come to one too. So two processors, each with
//! pages to accept, both get through only where they accept side by side: where one has to wait for the other to end, as where
//! the pages are accepted with a lock held, or one processor is run after the other, the first one's call fails.
#![tactic(auto)]

mod gate;

pub use gate::GatePort;

#[cfg(test)]
mod tests;
