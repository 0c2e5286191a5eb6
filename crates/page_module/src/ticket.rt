//! Which pages were taken out of a page table.

use guest_base::Pages;

/// One taking of pages out of a page table: a span carries it, and the table keeps it until the span is
/// put back.
#[derive(Clone, Copy, Debug, PartialEq, Eq)]
pub struct Ticket {
    pub pages: Pages,
    /// The number of runs of one state among the pages when they were taken.
    pub runs: u64,
    /// The room that goes with the span, in pieces: the table has it again when the span is put back.
    pub room: u64,
}
