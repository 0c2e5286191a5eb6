//! The pool: its pages are accepted, and then shared with the host.
ghost use Rattle.std.specs.Prelude.{◌≡◌, ◌≤◌, [], Some};
ghost use Rattle.guest_base.specs.declared.limits.TheConstants.{PAGE_END};
ghost use Rattle.guest_base.specs.declared.memory.PageState.TheVariants.{Accepted};
ghost use Rattle.guest_base.specs.declared.memory.Pages.{Pages as PagesValue};
ghost use Rattle.event_core.specs.declared.boot.Boot.{Boot as BootValue};
ghost use Rattle.event_core.specs.Boot.{InTurn, StagePart, SharesPool, pool_stages};
ghost use Rattle.page_module.specs.States.{AllIn};
ghost use Rattle.memory_core.specs.Booted.{IsBooted};
ghost use Rattle.guest_boot.specs.Booting.{StandsAfter, WorkedOn, FaultsBy, AreAccepted, GetsAccepted, LieInMemory};

use crate::accept::Kept;
use crate::fault::BootFault;
use crate::stages::accept_range;
use event_core::{Boot, CallKind, ModuleCall, PortAnswer};
use guest_base::limits::PAGE_BYTES;
use guest_base::{Level, Page, Pages};
use page_module::Port;
use std::alloc::Global;

/// Accepts the guarded units of the pool, where there is one, and shares its pages by one call.
pub(crate) fn open_pool<P: Port>(
    alloc: Global,
    boot: &Boot,
    kept: &mut Kept,
    port: &mut P,
) -> Result<(), BootFault>
    requires booted { IsBooted boot.now }
    requires place { (pool : PagesValue) → boot.now.pool ≡ Some pool → LieInMemory pool }
    requires accepted { (pool : PagesValue) → boot.now.pool ≡ Some pool
        → GetsAccepted boot.now (P.made port.old) pool }
    requires stands { StandsAfter boot.now (P.made port.old) kept.old }
    ensures done { WorkedOn boot.now
        (InTurn (StagePart boot.now) (P.made port.old) (pool_stages boot.now.pool))
        (P.made port.old) (P.made port.new) kept.new result }
    ensures faults { FaultsBy (P.faults port.old) (P.faults port.new) result }
    ensures never_fails { P.never_fails port.old → P.never_fails port.new }
{
    match boot.pool {
        Some(pool) => accept_and_share(alloc, boot, kept, port, pool),
        None => Ok(()),
    }
}

/// Accepts the guarded units of these pages, and shares the pages by one call.
fn accept_and_share<P: Port>(
    alloc: Global,
    boot: &Boot,
    kept: &mut Kept,
    port: &mut P,
    pool: Pages,
) -> Result<(), BootFault>
    requires booted { IsBooted boot.now }
    requires place { LieInMemory pool }
    requires accepted { GetsAccepted boot.now (P.made port.old) pool }
    requires stands { StandsAfter boot.now (P.made port.old) kept.old }
    ensures done { WorkedOn boot.now
        (InTurn (StagePart boot.now) (P.made port.old) (pool_stages (Some pool)))
        (P.made port.old) (P.made port.new) kept.new result }
    ensures faults { FaultsBy (P.faults port.old) (P.faults port.new) result }
    ensures never_fails { P.never_fails port.old → P.never_fails port.new }
{
    let start = PAGE_BYTES * pool.first;
    let len = PAGE_BYTES * pool.count;
    accept_range(alloc, boot, kept, port, start, len)?;
    share_pages(alloc, kept, port, pool)
}

/// Shares pages that are all accepted by one call. Out of memory for the call comes before it.
fn share_pages<P: Port>(
    alloc: Global,
    kept: &mut Kept,
    port: &mut P,
    pages: Pages,
) -> Result<(), BootFault>
    requires few { pages.count ≤ PAGE_END }
    requires accepted { AllIn Accepted kept.old.table.runs pages.first pages.count }
    requires none_out { kept.old.table.out ≡ [] }
    ensures done { (boot : BootValue) → AreAccepted boot (P.made port.old) pages
        → StandsAfter boot (P.made port.old) kept.old
        → WorkedOn boot (SharesPool pages) (P.made port.old) (P.made port.new) kept.new result }
    ensures faults { FaultsBy (P.faults port.old) (P.faults port.new) result }
    ensures never_fails { P.never_fails port.old → P.never_fails port.new }
{
    kept.table.reserve(alloc, 2 * pages.count + 2)?;
    port.reserve(alloc, 1)?;
    let mut span = kept.table.take(pages);
    let answer = port.share(&mut span);
    kept.table.put(span);
    if let PortAnswer::Failed = answer {
        return Err(BootFault::Module(Page(pages.first)));
    }
    kept.calls.push(ModuleCall {
        kind: CallKind::Share,
        first: pages.first,
        count: pages.count,
        level: Level::Small,
        answer,
    })?;
    Ok(())
}
