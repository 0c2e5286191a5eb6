//! A run on threads.
ghost use Rattle.std.specs.Prelude.{◌≡◌, None, IfOk, OnErr, length};
ghost use Rattle.event_core.specs.Printed.{FinalRuns};
ghost use Rattle.guest_runs.specs.Asking.{asking, PortsKept};
ghost use Rattle.guest_runs.specs.Beginning.{Begins};
ghost use Rattle.guest_runs.specs.Recordings.{KeepsRun, RunHalts};

use crate::recording::close;
use crate::seats::begin;
use event_core::{Recorded, Runs, Scripts};
use guest_boot::World;
use page_module::Port;
use std::alloc::{AllocError, Global};
use std::sync::Wait;
use std::thread::Threads;

/// Runs a script on each processor of a world on threads, one for each processor, until every command has its reply. The processors
/// meet in the locks of the memory and of the areas alone. Tells what is recorded, and the final runs of pages.
///
/// There are 1 to 64 scripts, one for each processor of the boot, of at most 2,048 commands, which convert no
/// block. The ports are at least as many; processor n runs on port n, and boot made its calls on the first. Whatever the
/// answer, the ports stand in their places again.
///
/// An error comes only where memory runs out; the ports' calls are then those of a legal history of the scripts, which needn't be
/// whole. It waits for the threads, and that these get on isn't promised.
pub fn run_threads<R: Threads + Wait + Sync, P: Port + Send>(
    rt: &R,
    alloc: Global,
    world: World,
    scripts: Scripts,
    ports: &mut Vec<P>,
) -> Result<(Recorded, Runs), AllocError>
    requires begins { Begins P.made world scripts ports.old.items }
    ensures boot { IfOk result (λ r. r.0.boot ≡ world.boot) }
    ensures scripts { IfOk result (λ r. r.0.scripts ≡ scripts) }
    ensures run { IfOk result (λ r. KeepsRun
        (asking P.made P.faults P.never_fails ports.old.items ports.new.items) None r.0) }
    ensures final_runs { IfOk result (λ r. FinalRuns r.0 r.1) }
    ensures halted { OnErr result (RunHalts
        (asking P.made P.faults P.never_fails ports.old.items ports.new.items)
        world.boot scripts) }
    ensures kept { PortsKept (length scripts)
        (asking P.made P.faults P.never_fails ports.old.items ports.new.items) }
{
    let (mut all, left) = begin(alloc, &world, scripts, ports)?;
    let World {
        boot,
        memory,
        areas,
        ..
    } = world;
    let places = guest_threads::run_threads(rt, alloc, memory, areas, &mut all);
    close(alloc, boot, places, all, ports, left)
}
