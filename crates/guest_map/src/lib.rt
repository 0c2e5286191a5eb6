//! What boot and memory need of a guest's memory map: its descriptors and host records, and its RAM as runs of pages.
#![tactic(auto)]

mod fields;
mod map;
mod ram;

pub use fields::{put_long, put_word};
pub use map::{GuestMap, is_ram};
pub use ram::push_run;
