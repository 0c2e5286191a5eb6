//! A run by turns.
ghost use Rattle.std.specs.Prelude.{◌≡◌, ◌<◌, Some, All, IfOk, OnErr, length, map};
ghost use Rattle.guest_base.specs.declared.memory.CpuNo.{CpuNo as CpuValue};
ghost use Rattle.event_core.specs.Printed.{FinalRuns};
ghost use Rattle.guest_runs.specs.Asking.{asking, PortsKept};
ghost use Rattle.guest_runs.specs.Beginning.{Begins};
ghost use Rattle.guest_runs.specs.Recordings.{KeepsRun, RunHalts};

use crate::recording::close;
use crate::seats::begin;
use event_core::{Order, Recorded, Runs, Scripts};
use guest_boot::World;
use page_module::Port;
use std::alloc::{AllocError, Global};

/// Runs a script on each processor of a world by turns, on one thread and without a lock: turns in this order, and then rounds of
/// all processors, until every command has its reply. Tells what is recorded, and the final runs of pages.
///
/// There are 1 to 64 scripts, one for each processor of the boot, of at most 2,048 commands, which convert no
/// block. Every number of the order is below the number of scripts. The ports are at least as many; processor n runs on
/// port n, and boot made its calls on the first. Whatever the answer, the ports stand in their places again.
///
/// An error comes only where memory runs out; the ports' calls are then those of a legal history of the scripts, which needn't be
/// whole.
pub fn turns<P: Port + Send>(
    alloc: Global,
    world: World,
    scripts: Scripts,
    order: &Order,
    ports: &mut Vec<P>,
) -> Result<(Recorded, Runs), AllocError>
    requires begins { Begins P.made world scripts ports.old.items }
    requires order { All (λ (cpu : CpuValue). cpu.0 < length scripts) order.now }
    ensures boot { IfOk result (λ r. r.0.boot ≡ world.boot) }
    ensures scripts { IfOk result (λ r. r.0.scripts ≡ scripts) }
    ensures run { IfOk result (λ r. KeepsRun
        (asking P.made P.faults P.never_fails ports.old.items ports.new.items)
        (Some (map (λ (cpu : CpuValue). cpu.0) order.now)) r.0) }
    ensures final_runs { IfOk result (λ r. FinalRuns r.0 r.1) }
    ensures halted { OnErr result (RunHalts
        (asking P.made P.faults P.never_fails ports.old.items ports.new.items)
        world.boot scripts) }
    ensures kept { PortsKept (length scripts)
        (asking P.made P.faults P.never_fails ports.old.items ports.new.items) }
{
    let (mut all, left) = begin(alloc, &world, scripts, ports)?;
    let World {
        boot,
        mut memory,
        mut areas,
        ..
    } = world;
    let answer = guest_turns::turns(alloc, &mut memory, &mut areas, &mut all, order);
    close(
        alloc,
        boot,
        answer.and(Ok((memory, areas))),
        all,
        ports,
        left,
    )
}
