//! The memory and the areas under their locks, with passes for each processor.
ghost use Rattle.std.specs.Prelude.{◌≡◌, ◌<◌, [], All, IfOk, length};
ghost use Rattle.guest_steps.specs.Ground.{ground_of, there_in};
ghost use Rattle.guest_steps.specs.Running.{AllStand};
ghost use Rattle.guest_threads.specs.Dealt.{HasRoom};
ghost use Rattle.guest_threads.specs.Seated.{AllSeated, AllSeen};

use crate::dealing::{gather, lock_areas, open_areas, seated_at_memory};
use crate::locks::{Homes, Locks, Passes};
use claim_lock::ClaimLock;
use guest_steps::Processor;
use io_areas::Area;
use memory_core::Memory;
use std::alloc::{AllocError, Global};

/// Puts the memory and the areas of some processors, before their first entry, each under a lock of its own, with passes for each
/// processor in their order, and with room to take them back. `AllocError` comes only where memory runs out, and the memory and
/// the areas are then dropped.
pub fn lock_all<T: Processor>(
    alloc: Global,
    memory: Memory,
    areas: Vec<Area>,
    processors: &Vec<T>,
) -> Result<(Locks, Vec<Passes>, Homes), AllocError>
    requires some { 0 < length processors.now.items }
    requires stand { AllStand T.seen T.stands memory.boot processors.now.items
        (ground_of memory areas.items) }
    requires first { (place : _) → there_in (ground_of memory areas.items) place ≡ [] }
    ensures seated { IfOk result
        (λ r. AllSeated T.seen T.stands r.0 r.1.items processors.now.items) }
    ensures room { IfOk result
        (λ r. HasRoom r.2 (length processors.now.items) (length r.0.areas.items)) }
{
    let seats = processors.len() as u32;
    let homes = Homes::with_room(alloc, processors.len(), areas.len())?;
    let (memory, passes) = ClaimLock::new(alloc, memory, seats)?;
    let mut all = seated_at_memory(alloc, passes)?;
    let areas = lock_areas(alloc, areas, seats, &mut all)?;
    Ok((Locks { memory, areas }, all, homes))
}

/// Takes the memory and the areas out of their locks again, once all passes are handed in, each at the place of its processor. All
/// processors stand over them, and what the passes have seen are the first entries of each place. It takes no memory.
pub fn unlock_all<T: Processor>(
    alloc: Global,
    locks: Locks,
    homes: Homes,
    passes: Vec<Passes>,
    processors: &Vec<T>,
) -> (Memory, Vec<Area>)
    requires seated { AllSeated T.seen T.stands locks passes.items processors.now.items }
    requires room { HasRoom homes (length passes.items) (length locks.areas.items) }
    ensures stand { AllStand T.seen T.stands result.0.boot processors.now.items
        (ground_of result.0 result.1.items) }
    ensures seen { All (λ mine. AllSeen mine (ground_of result.0 result.1.items)) passes.items }
{
    let Locks {
        memory: memory_lock,
        areas: area_locks,
    } = locks;
    let Homes {
        memory: mut of_memory,
        areas: mut of_areas,
        opened,
    } = homes;
    gather(passes, &mut of_memory, &mut of_areas);
    let memory = memory_lock.close(of_memory);
    memory.show_rising();
    let areas = open_areas(alloc, area_locks, of_areas, opened);
    (memory, areas)
}
