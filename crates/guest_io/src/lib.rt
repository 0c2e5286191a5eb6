//! The files that a guest reads and the sink that it writes its text to.
#![tactic(auto)]

mod files;
mod mem_files;
mod mem_sink;
mod numbered;
mod real_files;
mod real_sink;
mod sink;

pub use files::{Files, ReadFault};
pub use mem_files::MemFiles;
pub use mem_sink::MemSink;
pub use real_files::RealFiles;
pub use real_sink::RealSink;
pub use sink::{PutFault, Sink};
