//! One turn of a processor.
ghost use Rattle.std.specs.Prelude.{◌≡◌, ◌<◌, ◌^◌, Bool, true, false, List, [], ◌∷◌, OnErr, OnOk, length, map};
ghost use Rattle.io_areas.specs.Value.{AreaValue};
ghost use Rattle.guest_steps.specs.Ground.{Ground, HasArea, ground_of, with_area};
ghost use Rattle.guest_steps.specs.Running.{AllStand};
ghost use Rattle.guest_steps.specs.Seen.{need_of};
ghost use Rattle.guest_steps.specs.Steps.{stamp_before, stamp_in, AreaRoomAlone, MakesInArea, MakesOwn};
ghost use Rattle.guest_turns.specs.Walks.{GoOn, OneTurn, RestsAt, StampsLeft, WalksOn, all_left};

use event_core::NoRoom;
use guest_steps::{Need, Processor, Stepped};
use io_areas::Area;
use memory_core::Memory;
use std::alloc::{AllocError, Global};

/// One turn of the processor with this number: whether it made an event.
pub(crate) fn turn<T: Processor>(
    alloc: Global,
    memory: &mut Memory,
    areas: &mut Vec<Area>,
    processors: &mut Vec<T>,
    cpu: usize,
) -> Result<bool, AllocError>
    requires stand { AllStand T.seen T.stands memory.old.boot processors.old.items
        (ground_of memory.old areas.old.items) }
    requires cpu { cpu < length processors.old.items }
    ensures go_on { GoOn T.seen T.stands T.never_fails processors.old.items processors.new.items
        (ground_of memory.old areas.old.items) (ground_of memory.new areas.new.items) }
    ensures walk { OnOk result (WalksOn (cpu ∷ [])
        (map T.seen processors.old.items) (map T.seen processors.new.items)
        (ground_of memory.old areas.old.items) (ground_of memory.new areas.new.items)) }
    ensures event { result ≡ Ok true
        → all_left (map T.seen processors.new.items) (ground_of memory.new areas.new.items)
        < all_left (map T.seen processors.old.items) (ground_of memory.old areas.old.items) }
    ensures none { result ≡ Ok false → RestsAt cpu (map T.seen processors.old.items)
        (map T.seen processors.new.items)
        (ground_of memory.old areas.old.items) (ground_of memory.new areas.new.items) }
{
    one_turn(alloc, memory, areas, &mut processors[cpu])
}

/// One turn of a processor: whether it made an event.
fn one_turn<T: Processor>(
    alloc: Global,
    memory: &mut Memory,
    areas: &mut Vec<Area>,
    processor: &mut T,
) -> Result<bool, AllocError>
    requires stands { T.stands processor.old (ground_of memory.old areas.old.items) }
    requires stamps { StampsLeft (T.seen processor.old) (ground_of memory.old areas.old.items) }
    ensures { OneTurn T.seen T.stands T.never_fails result processor.old processor.new
        (ground_of memory.old areas.old.items) (ground_of memory.new areas.new.items) }
{
    match processor.next_need() {
        Need::Memory => with_memory(alloc, memory, processor),
        Need::Area(number) => {
            in_area(alloc, &mut areas[number as usize], processor)?;
            Ok(true)
        }
        Need::Own => {
            alone(alloc, processor)?;
            Ok(true)
        }
        Need::Finished => Ok(false),
    }
}

/// The turn of a processor whose next step needs the memory: behind the work for the pages that are out.
fn with_memory<T: Processor>(
    alloc: Global,
    memory: &mut Memory,
    processor: &mut T,
) -> Result<bool, AllocError>
    requires need { need_of (T.seen processor.old) ≡ Need.Memory }
    requires stands { (areas : List AreaValue)
        × T.stands processor.old (ground_of memory.old areas) }
    requires stamps { stamp_before (T.seen processor.old) memory.old < 2 ^ 64 }
    ensures { (areas : List AreaValue) → T.stands processor.old (ground_of memory.old areas)
        → OneTurn T.seen T.stands T.never_fails result processor.old processor.new
        (ground_of memory.old areas) (ground_of memory.new areas) }
{
    processor.work();
    match processor.step_memory(alloc, memory) {
        Ok(Stepped::Event) => Ok(true),
        Ok(Stepped::Blocked) => Ok(false),
        Err(NoRoom::NoMemory) => Err(AllocError),
        Err(NoRoom::Worn(_)) => unreachable!(),
    }
}

/// The turn of a processor whose next step needs this area.
fn in_area<T: Processor>(
    alloc: Global,
    area: &mut Area,
    processor: &mut T,
) -> Result<(), AllocError>
    requires need { need_of (T.seen processor.old) ≡ Need.Area area.old.number }
    requires stands { (base : Ground) × HasArea base area.old × T.stands processor.old base }
    requires stamps { stamp_in (T.seen processor.old) area.old < 2 ^ 64 }
    ensures stands { (base : Ground) → HasArea base area.old → T.stands processor.old base
        → T.stands processor.new (with_area base area.new) }
    ensures event { OnOk result
        (MakesInArea (T.seen processor.old) (T.seen processor.new) area.old area.new) }
    ensures refused { OnErr result ((T.seen processor.new ≡ T.seen processor.old)
        × AreaRoomAlone area.old area.new) }
    ensures never_fails { T.never_fails processor.old → T.never_fails processor.new }
{
    match processor.step_area(alloc, area) {
        Ok(()) => Ok(()),
        Err(NoRoom::NoMemory) => Err(AllocError),
        Err(NoRoom::Worn(_)) => unreachable!(),
    }
}

/// The turn of a processor whose next step needs nothing beside it.
fn alone<T: Processor>(alloc: Global, processor: &mut T) -> Result<(), AllocError>
    requires need { need_of (T.seen processor.old) ≡ Need.Own }
    requires stamps { (base : Ground) × T.stands processor.old base
        × (stamp_before (T.seen processor.old) base.memory < 2 ^ 64) }
    ensures stands { (base : Ground) → T.stands processor.old base → T.stands processor.new base }
    ensures event { OnOk result (MakesOwn (T.seen processor.old) (T.seen processor.new)) }
    ensures refused { OnErr result (T.seen processor.new ≡ T.seen processor.old) }
    ensures never_fails { T.never_fails processor.old → T.never_fails processor.new }
{
    match processor.step_own(alloc) {
        Ok(()) => Ok(()),
        Err(NoRoom::NoMemory) => Err(AllocError),
        Err(NoRoom::Worn(_)) => unreachable!(),
    }
}
