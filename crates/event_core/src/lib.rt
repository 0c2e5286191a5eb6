//! The events of a guest, what they mean, and the definitions that every layer speaks by.
#![tactic(auto)]

mod boot;
mod clock;
mod command;
mod entry;
mod event;
mod module_call;
mod name;
mod reply;

pub use boot::{Boot, Descriptor, Descriptors, Hosts, Order, Recorded, Runs};
pub use clock::{NoRoom, stamp_with};
pub use command::{Command, Script, Scripts};
pub use entry::{Entries, Entry, EntryLists, Place, Turn};
pub use event::{ConvertEnd, Event};
pub use module_call::{CallKind, Calls, ModuleCall, PortAnswer};
pub use name::Name;
pub use reply::{Found, Reply};

#[cfg(test)]
mod tests;
