//! Processors that run on threads of their own, over a memory and areas of a pool that each have a lock.
//!
//! A processor takes the lock of the memory, or of an area, for a step there, one at a time, and gives it back right after. The
//! calls of the secure module are made while all locks are free, and so are events that take place nowhere but in the processor.
//! That a thread gets on isn't promised: a processor that is blocked waits for another one's claim to close.

#![tactic(auto)]

mod dealing;
mod locks;
mod one;
mod places;
mod seats;

pub use locks::{Homes, Locks, Passes};
pub use one::{Driven, run_one};
pub use places::run_threads;
pub use seats::{lock_all, unlock_all};
