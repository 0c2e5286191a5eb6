//! Calls of the secure module.

use guest_base::{Items, Level};

/// What a call of the secure module asks.
#[derive(Clone, Copy, Debug, PartialEq, Eq)]
pub enum CallKind {
    /// Pending pages become Accepted.
    Accept,
    /// Accepted pages become Shared.
    Share,
    /// Shared pages become Pending.
    Unshare,
    /// Accepted pages become Pending: they are given back to the host.
    Give,
}

/// What the secure module answers.
#[derive(Clone, Copy, Debug, PartialEq, Eq)]
pub enum PortAnswer {
    Ok,
    /// The host maps the first page at a smaller level than the call's.
    SizeMismatch,
    Failed,
}

/// One call of the secure module, of `count` pages from the page `first` on.
#[derive(Clone, Copy, Debug, PartialEq, Eq)]
pub struct ModuleCall {
    pub kind: CallKind,
    pub first: u64,
    pub count: u64,
    /// The size that an accept call asks for; Small for every other call.
    pub level: Level,
    pub answer: PortAnswer,
}

/// Calls, in the order in which they were made.
pub type Calls = Items<ModuleCall>;
