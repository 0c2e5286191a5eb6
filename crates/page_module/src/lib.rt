//! The page table, the spans of pages that are taken out of it, and the ports to the secure module with what they record.
#![tactic(auto)]

mod building;
mod log;
mod mem_port;
mod port;
mod span;
mod table;
mod ticket;

pub use log::CallLog;
pub use mem_port::MemPort;
pub use port::{Port, answer_without_fault};
pub use span::Span;
pub use table::PageTable;
pub use ticket::Ticket;
