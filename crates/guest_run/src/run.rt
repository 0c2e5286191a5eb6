//! A run, from its files to its history.
ghost use Rattle.std.specs.Prelude.{◌≡◌, ◌≤◌, [], None, Some, length, All, IsSome};
ghost use Rattle.guest_base.specs.declared.limits.TheConstants.{MAX_CPUS};
ghost use Rattle.guest_input.specs.Reading.{reading};
ghost use Rattle.guest_words.specs.Views.{seen};
ghost use Rattle.guest_words.specs.Words.{KeepsLimits};
ghost use Rattle.guest_runs.specs.Asking.{asking};
ghost use Rattle.guest_run.specs.Ran.{Ran};

use crate::start::{Start, begin};
use event_core::{Order, Recorded, Runs};
use guest_input::Stop;
use guest_io::Files;
use guest_runs::{run_threads, turns};
use guest_words::Names;
use page_module::Port;
use std::alloc::{AllocError, Global};
use std::sync::Wait;
use std::thread::Threads;

/// The order of the turns, which is there.
fn order_in(order: Option<Order>) -> Order
    requires { IsSome order }
    ensures { order ≡ Some result }
{
    match order {
        Some(order) => order,
        None => unreachable!(),
    }
}

/// Reads the files, boots the map, and runs the scripts by turns in the order of the order file, which is named.
pub(crate) fn run_by_turns<F: Files, P: Port + Send>(
    alloc: Global,
    names: &Names<'_>,
    files: &mut F,
    ports: &mut Vec<P>,
) -> Result<(Recorded, Runs), Stop>
    requires limits { KeepsLimits (seen names.now) }
    requires ports { MAX_CPUS ≤ length ports.old.items }
    requires unmade { All (λ port. P.made port ≡ []) ports.old.items }
    requires ordered { IsSome (seen names.now).order }
    ensures { Ran (reading F.holds F.asked F.faults files.old files.new)
        (asking P.made P.faults P.never_fails ports.old.items ports.new.items)
        (seen names.now) result }
{
    let Start {
        world,
        scripts,
        order,
    } = begin(alloc, names, files, ports)?;
    match turns(alloc, world, scripts, &order_in(order), ports) {
        Ok(ran) => Ok(ran),
        Err(AllocError) => Err(Stop::NoMemory),
    }
}

/// Reads the files, boots the map, and runs the scripts on a thread each; no order is named.
pub(crate) fn run_on_threads<R: Threads + Wait + Sync, F: Files, P: Port + Send>(
    rt: &R,
    alloc: Global,
    names: &Names<'_>,
    files: &mut F,
    ports: &mut Vec<P>,
) -> Result<(Recorded, Runs), Stop>
    requires limits { KeepsLimits (seen names.now) }
    requires ports { MAX_CPUS ≤ length ports.old.items }
    requires unmade { All (λ port. P.made port ≡ []) ports.old.items }
    requires unordered { (seen names.now).order ≡ None }
    ensures { Ran (reading F.holds F.asked F.faults files.old files.new)
        (asking P.made P.faults P.never_fails ports.old.items ports.new.items)
        (seen names.now) result }
{
    let Start { world, scripts, .. } = begin(alloc, names, files, ports)?;
    match run_threads(rt, alloc, world, scripts, ports) {
        Ok(ran) => Ok(ran),
        Err(AllocError) => Err(Stop::NoMemory),
    }
}
