//! The entries of a history.

use crate::event::Event;
use crate::reply::Reply;
use guest_base::{CpuNo, Items};

/// Where an event takes place.
#[derive(Clone, Copy, Debug, PartialEq, Eq)]
pub enum Place {
    Memory,
    Area(u32),
    Own,
}

/// One event of a history.
#[derive(Debug, Drop)]
pub struct Entry {
    /// Its time: entries rise by stamp and then by processor.
    pub stamp: u128,
    pub cpu: CpuNo,
    /// The command, counted from 0 in its processor's script.
    pub cmd: u32,
    pub place: Place,
    pub event: Event,
    /// The command's answer, in its last entry.
    pub reply: Option<Reply>,
}

/// Entries, in the order in which they were made.
pub type Entries = Items<Entry>;

/// Lists of entries.
pub type EntryLists = Items<Entries>;

/// Who makes a step: the processor, its present command, and its clock.
#[derive(Clone, Copy, Debug, PartialEq, Eq)]
pub struct Turn {
    pub cpu: CpuNo,
    pub cmd: u32,
    pub clock: u128,
}
