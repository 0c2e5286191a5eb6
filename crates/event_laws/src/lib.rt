//! Laws over the definitions of a guest's events: what one definition says in other words than another.
#![tactic(auto)]

mod tables;
mod waiting;

pub use tables::{pending_as_marked, set_unit_is_pending};
pub use waiting::{block_waits_as_boot_comes, each_block_is_come_to};
