//! The texts of a guest's commands: scripts that are read, and replies that are printed.
#![tactic(auto)]

mod arguments;
mod command;
mod fault;
mod hex_digits;
mod lines;
mod name;
mod number;
mod order;
mod reply;
mod script;
mod verb;
mod words;

pub use fault::{ScriptFault, Why};
pub use hex_digits::read_hex;
pub use name::read_name;
pub use number::read_number;
pub use order::{OrderFault, print_order, read_order};
pub use reply::print_reply;
pub use script::read_script;
