//! What happens in one atomic step.

use crate::module_call::Calls;
use crate::reply::Found;
use guest_base::{Block, Page, PageState, SlotRun, Units};

/// How a conversion ended.
#[derive(Clone, Copy, Debug, PartialEq, Eq)]
pub enum ConvertEnd {
    Converted,
    /// The module refused the call: the pages are as before.
    Refused,
    /// The pages were taken back from the host, and accepting them again stopped at this page.
    Half(Page),
}

/// One change: of the memory under its lock, of an area under its lock, or of a processor's own state.
#[derive(Debug, Drop)]
pub enum Event {
    /// A processor's own step, with no lock.
    Own,
    /// Units are claimed for an acceptance, for the waiting block where there is one; `run` is the first
    /// run of units with set bits.
    Claim {
        block: Option<Block>,
        units: Option<Units>,
        run: Option<Units>,
    },
    /// The run was worked on by these calls; it stopped at a page, or the claim goes on at `next`.
    Report {
        run: Units,
        calls: Calls,
        stopped: Option<Page>,
        next: Option<Units>,
    },
    Got {
        block: Block,
    },
    NoBlock,
    Freed {
        block: Block,
    },
    Asked {
        found: bool,
    },
    Touched {
        page: Page,
        found: Found,
    },
    /// `to` is Shared for a share, Accepted where the block becomes private, and Pending where it is given back.
    ConvertBegin {
        block: Block,
        to: PageState,
    },
    ConvertEnd {
        block: Block,
        calls: Calls,
        end: ConvertEnd,
    },
    /// One look for free slots in an area, which copies in where a run was found.
    Looked {
        area: u32,
        run: Option<SlotRun>,
    },
    CopiedIn {
        run: SlotRun,
        off: u32,
        len: u32,
    },
    CopiedOut {
        run: SlotRun,
        off: u32,
        len: u32,
    },
    Released {
        run: SlotRun,
        copied: bool,
    },
    DeviceRead {
        run: SlotRun,
        off: u32,
        len: u32,
    },
    DeviceWrote {
        run: SlotRun,
        off: u32,
        len: u32,
    },
    /// The host reads the pool; `off` counts from the pool's start.
    HostRead {
        off: u64,
        len: u32,
    },
    HostWrote {
        off: u64,
        len: u32,
    },
}
