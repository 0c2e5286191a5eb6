//! Room for the next step of the memory, taken ahead.
ghost use Rattle.std.specs.Prelude.{◌≡◌, [], ◌^◌, ◌*◌, ◌+◌, ◌<◌, ◌≤◌, All, IfOk, OnOk, Some, sum_by};
ghost use Rattle.std.specs.Option.{ForSome};
ghost use Rattle.accept_sizes.specs.Room.{most_calls_of};
ghost use Rattle.event_core.specs.MemoryRows.{pages_count};
ghost use Rattle.event_core.specs.Units.{unit_pages};
ghost use Rattle.memory_core.specs.Steps.{last_stamp, unaccepted_count};
ghost use Rattle.guest_steps.specs.Steps.{RoomAlone};
ghost use Rattle.guest_cpu.specs.Kept.{HasRoom, most_of};
ghost use Rattle.guest_cpu.specs.Rooms.{RoomFor, RoomTaken};
ghost use Rattle.guest_cpu.specs.Stepping.{OnlyRoom};

use crate::progress::{Progress, RunRoom};
use accept_sizes::most_calls;
use event_core::NoRoom;
use guest_base::limits::PAGE_END;
use guest_base::{Unit, Units};
use memory_core::Memory;
use page_module::{CallLog, Port};
use std::alloc::{AllocError, Global};
use std::collections::VecDeque;

/// Room for the runs of a claim, and how many calls their acceptance makes at most.
#[derive(Drop)]
pub(crate) struct ClaimRoom {
    pub(crate) rooms: VecDeque<RunRoom>,
    pub(crate) calls: u64,
}

/// Takes room for the next step of the memory, and for an acceptance over `units` units until it closes.
pub(crate) fn reserve_memory(
    alloc: Global,
    memory: &mut Memory,
    units: u64,
) -> Result<(), AllocError>
    requires { last_stamp memory.old.entries < 2 ^ 64 }
    ensures ok { OnOk result (units < memory.new.room) }
    ensures kept { RoomAlone memory.old memory.new }
{
    match memory.reserve(alloc, units) {
        Ok(()) => Ok(()),
        Err(NoRoom::NoMemory) => Err(AllocError),
        Err(NoRoom::Worn(_)) => unreachable!(),
    }
}

/// Room for the calls of a run of units with this many pages each. A run whose pages don't lie in memory, which there is none of,
/// has no room.
fn run_room(alloc: Global, run: Units, size: u64) -> Result<RunRoom, AllocError>
    ensures run { IfOk result (λ r. r.run ≡ run) }
    ensures pages { IfOk result (λ r. run.count * size ≤ PAGE_END) }
    ensures log { IfOk result (λ r. (r.log.calls ≡ [])
        × (most_calls_of (run.count * size) ≤ r.log.room)) }
    ensures copy { IfOk result (λ r. (r.copy.calls ≡ [])
        × (most_calls_of (run.count * size) ≤ r.copy.room)) }
{
    let pages = run.count.checked_mul(size).ok_or(AllocError)?;
    if pages > PAGE_END {
        return Err(AllocError);
    }
    let log = CallLog::with_room(alloc, most_calls(pages))?;
    let copy = CallLog::with_room(alloc, most_calls(pages))?;
    Ok(RunRoom { run, log, copy })
}

/// Room for the unaccepted runs among units.
fn room_among(alloc: Global, memory: &Memory, units: Units) -> Result<ClaimRoom, AllocError>
    requires { units.first + units.count < 2 ^ 64 }
    ensures { IfOk result (λ r. RoomFor memory.now (Some units) r.rooms.items r.calls) }
{
    let size = memory.unit_pages();
    let end = units.first + units.count;
    let mut rooms = VecDeque::new(alloc);
    let mut calls = 0u64;
    let mut at = units.first;
    while let Some(run) = memory.next_run(Unit(at), Unit(end)) {
        let room = run_room(alloc, run, size)?;
        calls = calls
            .checked_add(most_calls(run.count * size))
            .ok_or(AllocError)?;
        rooms.push_back(room)?;
        at = run.first + run.count;
    }
    Ok(ClaimRoom { rooms, calls })
}

/// Room for the unaccepted runs among the units of a claim.
fn claim_room(alloc: Global, memory: &Memory, units: Option<Units>) -> Result<ClaimRoom, AllocError>
    requires { ForSome units (λ u. u.first + u.count < 2 ^ 64) }
    ensures { IfOk result (λ r. RoomFor memory.now units r.rooms.items r.calls) }
{
    match units {
        Some(units) => room_among(alloc, memory, units),
        None => Ok(ClaimRoom {
            rooms: VecDeque::new(alloc),
            calls: 0,
        }),
    }
}

/// Takes room for an acceptance of units, of which this many are unaccepted, until it closes. Nothing else changes.
pub(crate) fn take_room<P: Port>(
    alloc: Global,
    port: &mut P,
    progress: &mut Progress,
    memory: &mut Memory,
    units: Option<Units>,
    unaccepted: u64,
) -> Result<VecDeque<RunRoom>, AllocError>
    requires end { ForSome units (λ u. u.first + u.count < 2 ^ 64) }
    requires unaccepted { unaccepted
        ≡ unaccepted_count memory.old.boot memory.old.entries units }
    requires last { last_stamp memory.old.entries < 2 ^ 64 }
    ensures taken { IfOk result (λ rooms. RoomTaken progress.new memory.new
        units rooms.items (P.room port.new)) }
    ensures progress { OnlyRoom progress.old progress.new }
    ensures memory { RoomAlone memory.old memory.new }
    ensures room { P.room port.old ≤ P.room port.new }
    ensures made { P.made port.new ≡ P.made port.old }
    ensures faults { P.faults port.new ≡ P.faults port.old }
    ensures never_fails { P.never_fails port.old → P.never_fails port.new }
{
    reserve_memory(alloc, memory, unaccepted)?;
    let room = claim_room(alloc, memory, units)?;
    progress.reserve(room.rooms.len() as u64 + 1)?;
    port.reserve(alloc, room.calls)?;
    Ok(room.rooms)
}

/// Takes room for a step of one entry. Nothing else changes.
pub(crate) fn take_entry_room(
    alloc: Global,
    progress: &mut Progress,
    memory: &mut Memory,
) -> Result<(), AllocError>
    requires { last_stamp memory.old.entries < 2 ^ 64 }
    ensures memory_room { OnOk result (0 < memory.new.room) }
    ensures entries { OnOk result (0 < progress.new.room) }
    ensures progress { OnlyRoom progress.old progress.new }
    ensures memory { RoomAlone memory.old memory.new }
{
    reserve_memory(alloc, memory, 0)?;
    progress.reserve(1)
}
