ghost use Rattle.std.specs.Prelude.{◌≡◌, ◌<◌, ◌≤◌, IfOk};
ghost use Rattle.guest_base.specs.declared.limits.TheConstants.{PAGE_END};
ghost use Rattle.event_core.specs.Cut.{pages_end};

use accept_sizes::{RunEnd, accept_run, most_calls};
use event_core::{CallKind, Calls, Hosts, ModuleCall, PortAnswer, Runs};
use guest_base::{HostRun, Level, Page, PageRun, PageState, Pages};
use page_module::{CallLog, MemPort, PageTable, Port, Span};
use std::alloc::{AllocError, Global};
use std::test::Fail;

/// A span of these pages, all of them Pending.
fn pending_span(alloc: Global, pages: Pages) -> Result<Span, AllocError>
    requires some { 0 < pages.count }
    requires end { pages_end pages ≤ PAGE_END }
    ensures { IfOk result (λ span. span.ticket.pages ≡ pages) }
{
    let mut runs = Runs::new(alloc);
    let state = PageState::Pending;
    runs.try_push(PageRun { pages, state })?;
    let mut table = PageTable::new(alloc, &runs)?;
    table.reserve(alloc, 2 * pages.count + 2)?;
    Ok(table.take(pages))
}

/// How the acceptance of a span ends, and its calls.
fn accept(
    alloc: Global,
    port: &mut MemPort,
    span: &mut Span,
    hosts: &Hosts,
) -> Result<(RunEnd, Calls), AllocError>
    ensures { span.new.ticket ≡ span.old.ticket }
{
    let calls = most_calls(span.pages().count);
    port.reserve(alloc, calls)?;
    let mut log = CallLog::with_room(alloc, calls)?;
    let end = accept_run(port, span, hosts, &mut log);
    Ok((end, log.into_calls()))
}

fn call(first: u64, level: Level, answer: PortAnswer) -> ModuleCall {
    ModuleCall {
        kind: CallKind::Accept,
        first,
        count: level.pages(),
        level,
        answer,
    }
}

#[test]
fn counts_the_most_calls(rt: HostRuntime) {
    assert_eq!(rt; most_calls(0), 0);
    assert_eq!(rt; most_calls(511), 511);
    assert_eq!(rt; most_calls(512), 513);
    assert_eq!(rt; most_calls(262_144), 262_657);
}

#[test]
fn falls_to_what_the_host_has_mapped(rt: HostRuntime) -> Result<(), Fail> {
    let alloc = rt.alloc();
    let mut hosts = Hosts::new(alloc);
    let pages = Pages {
        first: 0x8_0000,
        count: 0x4_0000,
    };
    let level = Level::Large;
    hosts.try_push(HostRun { pages, level })?;
    let pages = Pages {
        first: 0x4_0000,
        count: 0x8_0000,
    };
    let mut span = pending_span(alloc, pages)?;
    let mut port = MemPort::new(alloc, Vec::new(alloc));
    let (end, calls) = accept(alloc, &mut port, &mut span, &hosts)?;
    assert_eq!(rt; end, RunEnd::Whole);
    assert_eq!(rt; calls.len(), 514);
    let mut expected = Vec::new(alloc);
    expected.push(call(0x4_0000, Level::Huge, PortAnswer::Ok))?;
    expected.push(call(0x8_0000, Level::Huge, PortAnswer::SizeMismatch))?;
    for unit in 0..512 {
        expected.push(call(0x8_0000 + unit * 512, Level::Large, PortAnswer::Ok))?;
    }
    assert_eq!(rt; calls.as_slice(), expected.as_slice());
    Ok(())
}

#[test]
fn goes_on_behind_a_stop(rt: HostRuntime) -> Result<(), Fail> {
    let alloc = rt.alloc();
    let pages = Pages {
        first: 0x400,
        count: 512,
    };
    let mut hosts = Hosts::new(alloc);
    let level = Level::Small;
    hosts.try_push(HostRun { pages, level })?;
    let mut span = pending_span(alloc, pages)?;
    let mut port = MemPort::new(alloc, vec![in alloc; 3]?);
    let (end, calls) = accept(alloc, &mut port, &mut span, &hosts)?;
    assert_eq!(rt; end, RunEnd::Stopped(Page(0x401)));
    let expected = [
        call(0x400, Level::Large, PortAnswer::SizeMismatch),
        call(0x400, Level::Small, PortAnswer::Ok),
        call(0x401, Level::Small, PortAnswer::Failed),
    ];
    assert_eq!(rt; calls.as_slice(), expected.as_slice());
    let (end, calls) = accept(alloc, &mut port, &mut span, &hosts)?;
    assert_eq!(rt; end, RunEnd::Whole);
    let mut expected = Vec::new(alloc);
    for page in 0x401..0x600 {
        expected.push(call(page, Level::Small, PortAnswer::Ok))?;
    }
    assert_eq!(rt; calls.as_slice(), expected.as_slice());
    Ok(())
}

#[test]
fn falls_behind_a_failure(rt: HostRuntime) -> Result<(), Fail> {
    let alloc = rt.alloc();
    let pages = Pages {
        first: 0x400,
        count: 512,
    };
    let mut span = pending_span(alloc, pages)?;
    let mut port = MemPort::new(alloc, vec![in alloc; 1]?);
    let (end, calls) = accept(alloc, &mut port, &mut span, &Hosts::new(alloc))?;
    assert_eq!(rt; end, RunEnd::Whole);
    let mut expected = Vec::new(alloc);
    expected.push(call(0x400, Level::Large, PortAnswer::Failed))?;
    for page in 0x400..0x600 {
        expected.push(call(page, Level::Small, PortAnswer::Ok))?;
    }
    assert_eq!(rt; calls.as_slice(), expected.as_slice());
    Ok(())
}
