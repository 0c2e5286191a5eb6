//! The blocks and the mappings that a processor holds, and what it decides of its commands by itself.
#![tactic(auto)]

mod bytes;
mod held;
mod holdings;
mod kept;
mod looks;
mod mapped;
mod refusals;

pub use held::HeldBlocks;
pub use holdings::Holdings;
