//! What a script tells a processor to do.

use crate::name::Name;
use guest_base::{Bytes, Direction, Items};

/// A command. Addresses, offsets and lengths are in bytes.
#[derive(Debug, Drop)]
pub enum Command {
    Alloc {
        name: Name,
        order: u32,
    },
    Free {
        name: Name,
    },
    Accept {
        start: u64,
        len: u64,
    },
    Query {
        start: u64,
        len: u64,
    },
    Read {
        name: Name,
        off: u64,
        len: u64,
    },
    Write {
        name: Name,
        off: u64,
        hex: Bytes,
    },
    Fill {
        name: Name,
        off: u64,
        len: u64,
        byte: u8,
    },
    Load {
        name: Name,
        off: u64,
    },
    Share {
        name: Name,
    },
    Private {
        name: Name,
    },
    /// Gives a block of 4 MiB back to the host.
    Giveback {
        name: Name,
    },
    Map {
        mapping: Name,
        name: Name,
        off: u64,
        len: u64,
        direction: Direction,
        mask: u64,
    },
    SyncDev {
        mapping: Name,
        off: u64,
        len: u64,
    },
    SyncCpu {
        mapping: Name,
        off: u64,
        len: u64,
    },
    Unmap {
        mapping: Name,
        skip: bool,
    },
    DRead {
        mapping: Name,
        off: u64,
        len: u64,
    },
    DWrite {
        mapping: Name,
        off: u64,
        hex: Bytes,
    },
    HostRead {
        off: u64,
        len: u64,
    },
    HostWrite {
        off: u64,
        hex: Bytes,
    },
}

/// The commands of one processor, in order.
pub type Script = Items<Command>;

/// A script for each processor.
pub type Scripts = Items<Script>;
