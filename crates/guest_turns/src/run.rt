//! Turns in an order, and then rounds of all processors.
ghost use Rattle.std.specs.Prelude.{◌≡◌, ◌<◌, All, IsTrue, ◌↔◌, OnOk, length, map};
ghost use Rattle.guest_base.specs.declared.memory.CpuNo.{CpuNo as CpuValue};
ghost use Rattle.event_core.specs.Turns.{numbers_from};
ghost use Rattle.guest_steps.specs.Ground.{ground_of};
ghost use Rattle.guest_steps.specs.Running.{AllFinished, AllStand, AtFirst, EachLater, TurnedBy};
ghost use Rattle.guest_steps.specs.Seen.{need_of};
ghost use Rattle.guest_turns.specs.Walks.{GoOn, WalksOn, all_left};

use crate::turn::turn;
use event_core::Order;
use guest_steps::{Need, Processor};
use io_areas::Area;
use memory_core::Memory;
use std::alloc::{AllocError, Global};

/// Runs processors by turns on one thread, without a lock: turns in this order, and then rounds of all processors, each from number
/// 0 up, until every script has its replies. In its turn a processor makes one event; it makes none where it is finished, or where
/// an open claim of another one is in its way or is for a block that it waits for. The processor number n stands at place n.
///
/// An error comes only where memory runs out. The processors then stand as their events so far left them.
pub fn turns<T: Processor>(
    alloc: Global,
    memory: &mut Memory,
    areas: &mut Vec<Area>,
    processors: &mut Vec<T>,
    order: &Order,
) -> Result<(), AllocError>
    requires stand { AllStand T.seen T.stands memory.old.boot processors.old.items
        (ground_of memory.old areas.old.items) }
    requires first { AtFirst (map T.seen processors.old.items)
        (ground_of memory.old areas.old.items) }
    requires order { All (λ (cpu : CpuValue). cpu.0 < length processors.old.items) order.now }
    ensures stand { AllStand T.seen T.stands memory.old.boot processors.new.items
        (ground_of memory.new areas.new.items) }
    ensures later { EachLater T.seen T.never_fails processors.old.items processors.new.items }
    ensures finished { OnOk result (AllFinished (map T.seen processors.new.items)) }
    ensures turned { OnOk result (TurnedBy memory.old.boot (map T.seen processors.new.items)
        (map (λ (cpu : CpuValue). cpu.0) order.now)) }
{
    in_order(alloc, memory, areas, processors, order)?;
    while !all_finished(processors) {
        round(alloc, memory, areas, processors)?;
    }
    Ok(())
}

/// Turns in this order.
fn in_order<T: Processor>(
    alloc: Global,
    memory: &mut Memory,
    areas: &mut Vec<Area>,
    processors: &mut Vec<T>,
    order: &Order,
) -> Result<(), AllocError>
    requires stand { AllStand T.seen T.stands memory.old.boot processors.old.items
        (ground_of memory.old areas.old.items) }
    requires order { All (λ (cpu : CpuValue). cpu.0 < length processors.old.items) order.now }
    ensures go_on { GoOn T.seen T.stands T.never_fails processors.old.items processors.new.items
        (ground_of memory.old areas.old.items) (ground_of memory.new areas.new.items) }
    ensures walk { OnOk result (WalksOn (map (λ (cpu : CpuValue). cpu.0) order.now)
        (map T.seen processors.old.items) (map T.seen processors.new.items)
        (ground_of memory.old areas.old.items) (ground_of memory.new areas.new.items)) }
{
    for cpu in order.as_slice() {
        turn(alloc, memory, areas, processors, cpu.0 as usize)?;
    }
    Ok(())
}

/// One turn of each processor, in the order of their numbers.
fn round<T: Processor>(
    alloc: Global,
    memory: &mut Memory,
    areas: &mut Vec<Area>,
    processors: &mut Vec<T>,
) -> Result<(), AllocError>
    requires stand { AllStand T.seen T.stands memory.old.boot processors.old.items
        (ground_of memory.old areas.old.items) }
    ensures go_on { GoOn T.seen T.stands T.never_fails processors.old.items processors.new.items
        (ground_of memory.old areas.old.items) (ground_of memory.new areas.new.items) }
    ensures walk { OnOk result (WalksOn (numbers_from 0 (length processors.old.items))
        (map T.seen processors.old.items) (map T.seen processors.new.items)
        (ground_of memory.old areas.old.items) (ground_of memory.new areas.new.items)) }
    ensures less { OnOk result ((AllFinished (map T.seen processors.old.items) → ⊥)
        → all_left (map T.seen processors.new.items) (ground_of memory.new areas.new.items)
        < all_left (map T.seen processors.old.items) (ground_of memory.old areas.old.items)) }
{
    for cpu in 0..processors.len() {
        turn(alloc, memory, areas, processors, cpu)?;
    }
    Ok(())
}

/// Whether every script has its replies.
fn all_finished<T: Processor>(processors: &[T]) -> bool
    ensures { IsTrue result ↔ All (λ p. need_of (T.seen p) ≡ Need.Finished) processors.now }
{
    processors
        .iter()
        .all(|processor| processor.next_need() == Need::Finished)
}
