//! What a guest is booted from, and what boot records.

use crate::command::Scripts;
use crate::entry::Entries;
use crate::module_call::Calls;
use guest_base::{Bytes, CpuNo, HostRun, Items, PageRun, Pages};

/// A memory descriptor of the firmware (UEFI 2.9, `EFI_MEMORY_DESCRIPTOR`).
#[derive(Clone, Copy, Debug, PartialEq, Eq)]
pub struct Descriptor {
    /// The memory type; numbers above 15 count as Reserved.
    pub kind: u32,
    /// The first byte's address.
    pub start: u64,
    /// The number of pages of 4,096 bytes.
    pub pages: u64,
}

/// Memory descriptors, in the order of the map.
pub type Descriptors = Items<Descriptor>;

/// Host records; a page in none of them is mapped as Huge.
pub type Hosts = Items<HostRun>;

/// Runs of pages of one state.
pub type Runs = Items<PageRun>;

/// Processors, in the order of their turns.
pub type Order = Items<CpuNo>;

/// What boot made of a map.
#[derive(Debug, Drop)]
pub struct Boot {
    /// The maximal runs of RAM by their first states, rising: those of the map, and of the table where one was handed in.
    pub ram: Runs,
    /// The host's records.
    pub hosts: Hosts,
    /// The address, in bytes, of the bitmap's first unit.
    pub base: u64,
    /// The bytes of a unit: 2 MiB unless a table was handed in.
    pub unit: u64,
    /// The bitmap before any call, the stub's or the table's: bit k mod 8 of byte k / 8 is unit k, set where it is unaccepted.
    pub bits: Bytes,
    /// The number of processors.
    pub cpus: u32,
    /// The number of slots of the pool, or 0.
    pub slots: u32,
    /// The number of areas, a power of two.
    pub areas: u32,
    /// The pages of the pool.
    pub pool: Option<Pages>,
    /// Boot's calls of the secure module, in order.
    pub calls: Calls,
}

/// A run: how it was booted, what it was told to do, and what happened.
#[derive(Debug, Drop)]
pub struct Recorded {
    pub boot: Boot,
    pub scripts: Scripts,
    pub entries: Entries,
}
