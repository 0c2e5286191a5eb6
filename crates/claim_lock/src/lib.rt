//! A lock over one value that several processors share, with a pass for each of them.
//!
//! A processor takes the lock with its pass, and may then change its own part of the value and add entries of its own.
//! While it is away the others do the same. So at its next `take` it finds the fixed parts as they were given, its own
//! part as it left it, all entries that it had seen before all others, and of its own entries just those that it made.
//! Nothing is said of how long a `take` waits, or of who comes first (own rule).
//!
//! The lock is one word, 0 while it is free and c + 1 while processor c holds it, and one slot, which has the value while
//! the lock is free. `specs/Rule.antt` has the rule over both and over what all passes know.
#![tactic(auto)]

mod held;
mod known;
mod law;
mod lock;
mod parted;
mod pass;
mod tally;
#[cfg(test)]
mod tests;
mod view;

pub use known::Known;
pub use lock::ClaimLock;
pub use parted::Parted;
pub use pass::{Grip, Held, Pass};
