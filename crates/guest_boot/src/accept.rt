//! The acceptance of pages while a guest boots.
ghost use Rattle.std.specs.Prelude.{◌≡◌, ◌≢◌, ℕ, ◌++◌, ◌^◌, ◌<◌, ◌≤◌, [], None, Some, true, false, Err, IfOk, OnOk, OnErr};
ghost use Rattle.guest_base.specs.declared.limits.TheConstants.{PAGE_END};
ghost use Rattle.guest_base.specs.Counts.{Rose};
ghost use Rattle.guest_base.specs.Ranges.{in_range};
ghost use Rattle.guest_base.specs.declared.memory.Page.{Page as PageValue};
ghost use Rattle.event_core.specs.Acceptance.{stop_of};
ghost use Rattle.event_core.specs.Boot.{AcceptsPiece, AcceptsRun};
ghost use Rattle.page_module.specs.States.{state_in};
ghost use Rattle.accept_sizes.specs.Ends.{stopped_at};
ghost use Rattle.memory_core.specs.Bitmaps.{bits_in};
ghost use Rattle.memory_core.specs.Booted.{IsBooted};
ghost use Rattle.guest_boot.specs.Booting.{StandsAfter, WorkedOn, FaultsBy, IsEarly, AcceptedOut};

use crate::fault::BootFault;
use accept_sizes::{RunEnd, accept_run, most_calls};
use event_core::{Boot, Calls, Hosts, ModuleCall};
use guest_base::{Pages, Units};
use memory_core::{clear_run, run_pages};
use page_module::{CallLog, PageTable, Port, Span};
use std::alloc::{AllocError, Global};
use unaccepted_bitmap::Bitmap;

/// What is kept of a guest's memory while it boots.
#[derive(Drop)]
pub(crate) struct Kept {
    pub(crate) table: PageTable,
    /// None where the map has no unaccepted descriptor.
    pub(crate) bits: Option<Bitmap>,
    /// The calls made so far.
    pub(crate) calls: Vec<ModuleCall>,
}

/// Pages that are out after an acceptance.
#[derive(Debug, Drop)]
struct Worked {
    span: Span,
    calls: Calls,
    end: RunEnd,
}

/// Takes pages out of the table, and accepts those that are pending by sizes. Out of memory comes before the first call.
fn work<P: Port>(
    alloc: Global,
    hosts: &Hosts,
    table: &mut PageTable,
    port: &mut P,
    pages: Pages,
) -> Result<Worked, AllocError>
    requires few { pages.count ≤ PAGE_END }
    requires here { (page : ℕ) → in_range pages.first pages.count page ≡ true
        → state_in table.old.runs page ≢ None }
    requires none_out { table.old.out ≡ [] }
    ensures accepted { IfOk result (λ w.
        AcceptedOut hosts.now table.old table.new pages w.span w.calls) }
    ensures made { IfOk result (λ w. P.made port.new ≡ P.made port.old ++ w.calls) }
    ensures end { IfOk result (λ w. stop_of w.calls ≡ stopped_at w.end) }
    ensures stopped { IfOk result (λ w.
        stopped_at w.end ≢ None → Rose (P.faults port.old) (P.faults port.new)) }
    ensures unmade { OnErr result (P.made port.new ≡ P.made port.old) }
    ensures faults { P.faults port.old ≤ P.faults port.new }
    ensures never_fails { P.never_fails port.old → P.never_fails port.new }
{
    table.reserve(alloc, 2 * pages.count + 2)?;
    let most = most_calls(pages.count);
    port.reserve(alloc, most)?;
    let mut log = CallLog::with_room(alloc, most)?;
    let mut span = table.take(pages);
    let end = accept_run(port, &mut span, hosts, &mut log);
    Ok(Worked {
        span,
        calls: log.into_calls(),
        end,
    })
}

/// Adds the calls of an acceptance to those made before, unless it stopped.
fn keep_calls(
    kept: &mut Vec<ModuleCall>,
    calls: &[ModuleCall],
    end: RunEnd,
) -> Result<(), BootFault>
    ensures calls { OnOk result (kept.new.items ≡ kept.old.items ++ calls.now) }
    ensures whole { OnOk result (stopped_at end ≡ None) }
    ensures stopped { (page : PageValue) → result ≡ Err (BootFault.Module page)
        → stopped_at end ≡ Some page }
    ensures placed { result ≢ Err BootFault.PoolNoRoom }
{
    if let RunEnd::Stopped(page) = end {
        return Err(BootFault::Module(page));
    }
    kept.extend_from_slice(calls)?;
    Ok(())
}

/// Accepts an early piece by sizes.
pub(crate) fn accept_piece<P: Port>(
    alloc: Global,
    boot: &Boot,
    kept: &mut Kept,
    port: &mut P,
    pages: Pages,
) -> Result<(), BootFault>
    requires booted { IsBooted boot.now }
    requires stands { StandsAfter boot.now (P.made port.old) kept.old }
    requires early { IsEarly boot.now pages }
    ensures done { WorkedOn boot.now (AcceptsPiece boot.now (P.made port.old) pages)
        (P.made port.old) (P.made port.new) kept.new result }
    ensures faults { FaultsBy (P.faults port.old) (P.faults port.new) result }
    ensures never_fails { P.never_fails port.old → P.never_fails port.new }
{
    let Worked { span, calls, end } = work(alloc, &boot.hosts, &mut kept.table, port, pages)?;
    kept.table.put(span);
    keep_calls(&mut kept.calls, calls.as_slice(), end)
}

/// Accepts a run of unaccepted units by sizes, and clears the bits of those without a pending page.
pub(crate) fn accept_units<P: Port>(
    alloc: Global,
    boot: &Boot,
    kept: &mut Kept,
    port: &mut P,
    run: Units,
) -> Result<(), BootFault>
    requires booted { IsBooted boot.now }
    requires stands { StandsAfter boot.now (P.made port.old) kept.old }
    requires some { 0 < run.count }
    requires set { (unit : ℕ) → in_range run.first run.count unit ≡ true
        → bits_in kept.old.bits unit ≡ true }
    ensures others { OnOk result ((unit : ℕ) → in_range run.first run.count unit ≡ false
        → bits_in kept.new.bits unit ≡ bits_in kept.old.bits unit) }
    ensures done { WorkedOn boot.now (AcceptsRun boot.now (P.made port.old) run)
        (P.made port.old) (P.made port.new) kept.new result }
    ensures faults { FaultsBy (P.faults port.old) (P.faults port.new) result }
    ensures never_fails { P.never_fails port.old → P.never_fails port.new }
{
    let pages = run_pages(&kept.bits, run);
    let Worked { span, calls, end } = work(alloc, &boot.hosts, &mut kept.table, port, pages)?;
    let _ = clear_run(&mut kept.bits, &span, run);
    kept.table.put(span);
    keep_calls(&mut kept.calls, calls.as_slice(), end)
}
