//! Ports that meet, and ports that wait in vain.
ghost use Rattle.std.specs.Prelude.{◌≡◌, ◌+◌, ◌<◌, ◌≤◌, IfOk};
ghost use Rattle.guest_base.specs.declared.limits.TheConstants.{PAGE_END};
ghost use Rattle.event_core.specs.Cut.{pages_end};
ghost use Rattle.page_module.specs.Spans.{SpanIs};

use crate::GatePort;
use event_core::{PortAnswer, Runs};
use guest_base::{Level, Page, PageRun, PageState, Pages};
use page_module::{PageTable, Port, Span};
use std::alloc::{AllocError, Global};
use std::test::Fail;
use std::thread;

/// The span of a run of pages.
fn taken(alloc: Global, run: PageRun) -> Result<Span, AllocError>
    requires some { 0 < run.pages.count }
    requires end { pages_end run.pages ≤ PAGE_END }
    ensures pages { IfOk result (λ span. span.ticket.pages ≡ run.pages) }
    ensures states { IfOk result (λ span. SpanIs run.state span) }
{
    let mut runs = Runs::new(alloc);
    runs.try_push(run)?;
    let mut table = PageTable::new(alloc, &runs)?;
    table.reserve(alloc, 2 * run.pages.count + 2)?;
    Ok(table.take(run.pages))
}

/// Accepts the first pending page of the span.
fn accept_first<P: Port>(port: &mut P, span: &mut Span) -> Option<PortAnswer>
    requires room { 0 < P.room port.old }
{
    let run = span.next_pending(Page(0))?;
    Some(port.accept(span, Page(run.first), Level::Small, Level::Huge))
}

/// Accepts a page by the port.
fn accept_page(alloc: Global, port: &mut GatePort) -> Result<Option<PortAnswer>, AllocError> {
    let pages = Pages {
        first: 0x100,
        count: 4,
    };
    let state = PageState::Pending;
    let mut span = taken(alloc, PageRun { pages, state })?;
    port.reserve(alloc, 1)?;
    Ok(accept_first(port, &mut span))
}

#[test]
fn two_processors_meet(rt: HostRuntime) -> Result<(), Fail> {
    let alloc = rt.alloc();
    let (mut first, mut second) = GatePort::pair(alloc)?;
    let (one, other) = thread::join(
        &rt,
        || accept_page(alloc, &mut first),
        || accept_page(alloc, &mut second),
    );
    assert_eq!(rt; one?, Some(PortAnswer::Ok));
    assert_eq!(rt; other?, Some(PortAnswer::Ok));
    // once both have come, the gate stays open
    assert_eq!(rt; accept_page(alloc, &mut first)?, Some(PortAnswer::Ok));
    assert_eq!(rt; accept_page(alloc, &mut second)?, Some(PortAnswer::Ok));
    Ok(())
}

#[test]
fn one_processor_before_the_other_fails(rt: HostRuntime) -> Result<(), Fail> {
    let alloc = rt.alloc();
    let (mut first, mut second) = GatePort::pair_looking(alloc, 10_000)?;
    assert_eq!(rt; accept_page(alloc, &mut first)?, Some(PortAnswer::Failed));
    assert_eq!(rt; accept_page(alloc, &mut second)?, Some(PortAnswer::Ok));
    assert_eq!(rt; accept_page(alloc, &mut first)?, Some(PortAnswer::Ok));
    Ok(())
}

#[test]
fn other_calls_have_no_gate(rt: HostRuntime) -> Result<(), Fail> {
    let alloc = rt.alloc();
    let (mut port, _other) = GatePort::pair_looking(alloc, 0)?;
    let pages = Pages {
        first: 0x100,
        count: 4,
    };
    let state = PageState::Accepted;
    let mut span = taken(alloc, PageRun { pages, state })?;
    port.reserve(alloc, 2)?;
    assert_eq!(rt; port.share(&mut span), PortAnswer::Ok);
    assert_eq!(rt; span.state(Page(0x103)), PageState::Shared);
    assert_eq!(rt; port.unshare(&mut span), PortAnswer::Ok);
    assert_eq!(rt; span.state(Page(0x103)), PageState::Pending);
    Ok(())
}
