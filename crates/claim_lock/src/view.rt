//! What a seat at the table knows, and what is fixed when the table is made.

use crate::known::Known;
use std::collections::LinkedList;
use std::snapshot::Snapshot;

/// What a seat knows: its processors, which is one for a pass, and the state that it took where it holds the lock.
/// The program makes no such value.
pub struct View<S> {
    pub known: LinkedList<Known>,
    pub taken: Option<S>,
}

/// The number of passes, and the state as it was handed in, which only clauses read.
#[derive(Drop)]
pub struct Origin<S> {
    pub seats: u32,
    pub state: Snapshot<S>,
}
