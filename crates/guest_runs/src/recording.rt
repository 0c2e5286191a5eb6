//! What is recorded of processors that have finished.
ghost use Rattle.std.specs.Prelude.{◌≡◌, ◌+◌, ◌≤◌, ℕ, List, Option, [], IfOk, slice_get, unwrap_or, vec_len, vec_capacity};
ghost use Rattle.event_core.specs.declared.command.Command.{Command as CommandValue};
ghost use Rattle.event_core.specs.Calls.{calls_of};
ghost use Rattle.event_core.specs.Legal.{Whole};
ghost use Rattle.event_core.specs.MemoryRows.{page_state};
ghost use Rattle.event_core.specs.Runs.{AreMaximalRuns};
ghost use Rattle.event_core.specs.Turns.{entries_by};
ghost use Rattle.guest_boot.specs.declared.world.World.{World as WorldValue};
ghost use Rattle.guest_steps.specs.Ground.{ground_of};
ghost use Rattle.guest_steps.specs.Seen.{Seen};
ghost use Rattle.io_areas.specs.Value.{AreaValue};
ghost use Rattle.guest_runs.specs.Asking.{asking};
ghost use Rattle.guest_runs.specs.OnPorts.{HaveFinished, HaveRun};
ghost use Rattle.guest_runs.specs.Recordings.{Tells};

use crate::seats::{Left, finish_all};
use event_core::{Boot, Recorded, Runs};
use guest_base::Items;
use guest_cpu::Cpu;
use guest_history::gather;
use io_areas::Area;
use memory_core::Memory;
use page_module::Port;
use std::alloc::{AllocError, Global};

/// The run of processors that have finished, by the scripts and the entries that they left, and the final runs of pages, by the
/// memory over which they stand, with areas that aren't needed any more.
pub(crate) fn recorded(
    alloc: Global,
    boot: Boot,
    memory: Memory,
    left: Left,
) -> Result<(Recorded, Runs), AllocError>
    requires { (all : List Seen) × (areas : List AreaValue)
        × HaveFinished boot all (ground_of memory areas) left.scripts.items left.lists.items }
    ensures boot { IfOk result (λ r. r.0.boot ≡ boot) }
    ensures scripts { IfOk result (λ r. r.0.scripts ≡ left.scripts.items) }
    ensures entries { IfOk result (λ r. (cpu : ℕ) →
        entries_by cpu r.0.entries ≡ unwrap_or (slice_get left.lists.items cpu) []) }
    ensures whole { IfOk result (λ r. Whole boot left.scripts.items r.0.entries) }
    ensures runs { IfOk result (λ r.
        AreMaximalRuns (page_state boot (calls_of boot r.0.entries)) r.1) }
{
    let (table, _) = memory.into_parts();
    let runs = table.runs(alloc)?;
    let Left { scripts, lists } = left;
    let (scripts, lists) = (Items::from_vec(scripts), Items::from_vec(lists));
    Ok((gather(alloc, boot, scripts, lists)?, runs))
}

/// Ends a run: puts the ports back in their places, and tells the run where memory didn't run out.
pub(crate) fn close<P: Port>(
    alloc: Global,
    boot: Boot,
    places: Result<(Memory, Vec<Area>), AllocError>,
    all: Vec<Cpu<P>>,
    ports: &mut Vec<P>,
    mut left: Left,
) -> Result<(Recorded, Runs), AllocError>
    requires port_room { vec_len ports.old + vec_len all ≤ vec_capacity ports.old }
    requires script_room { vec_len all ≤ vec_capacity left.scripts }
    requires list_room { vec_len all ≤ vec_capacity left.lists }
    requires no_script { left.scripts.items ≡ [] }
    requires no_list { left.lists.items ≡ [] }
    requires run { (world : WorldValue) × (scripts : List (List CommandValue))
        × (order : Option (List ℕ)) × (before : List P) × (world.boot ≡ boot)
        × HaveRun P.made P.faults P.never_fails world scripts order before
        ports.old.items all.items places }
    ensures { (world : WorldValue) (scripts : List (List CommandValue))
        (order : Option (List ℕ)) (before : List P) → world.boot ≡ boot
        → HaveRun P.made P.faults P.never_fails world scripts order before
        ports.old.items all.items places → Tells
        (asking P.made P.faults P.never_fails before ports.new.items) order boot scripts result }
{
    finish_all(all, ports, &mut left);
    let (memory, _) = places?;
    recorded(alloc, boot, memory, left)
}
