//! The memory and the areas of the pool under their locks, with a pass for each processor and lock.

use claim_lock::{ClaimLock, Pass};
use io_areas::Area;
use memory_core::Memory;

/// The locks that processors share: that of the memory, and one for each area of the pool, in the order of the areas' numbers.
#[derive(Drop)]
pub struct Locks {
    pub memory: ClaimLock<Memory>,
    pub areas: Vec<ClaimLock<Area>>,
}

/// The passes of one processor: for the memory's lock, and for each area's.
#[derive(Drop)]
pub struct Passes {
    pub memory: Pass<Memory>,
    pub areas: Vec<Pass<Area>>,
}

/// Room for all passes when they come back, in a list for each lock, and for the areas: with it the locks are opened without memory.
#[derive(Drop)]
pub struct Homes {
    pub memory: Vec<Pass<Memory>>,
    pub areas: Vec<Vec<Pass<Area>>>,
    pub opened: Vec<Area>,
}
