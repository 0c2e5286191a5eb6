//! Pages go out of the table, are changed by a port, and come back.
ghost use Rattle.std.specs.Prelude.{◌≡◌, ◌∷◌, [], ◌+◌, ◌^◌, ◌<◌, ◌≤◌, IfOk};
ghost use Rattle.guest_base.specs.declared.memory.PageState.TheVariants.{Accepted};
ghost use Rattle.guest_base.specs.declared.limits.TheConstants.{PAGE_END};
ghost use Rattle.event_core.specs.Cut.{pages_end};
ghost use Rattle.page_module.specs.Spans.{SpanIs};

use event_core::{PortAnswer, Runs};
use guest_base::{Level, Page, PageRun, PageState, Pages};
use page_module::{MemPort, PageTable, Port, Span};
use std::alloc::{AllocError, Global};
use std::test::Fail;

/// A table of one run's pages, and the span of these.
fn taken(alloc: Global, run: PageRun) -> Result<(PageTable, Span), AllocError>
    requires some { 0 < run.pages.count }
    requires end { pages_end run.pages ≤ PAGE_END }
    ensures pages { IfOk result (λ x. x.1.ticket.pages ≡ run.pages) }
    ensures out { IfOk result (λ x. x.0.out ≡ x.1.ticket ∷ []) }
    ensures states { IfOk result (λ x. SpanIs run.state x.1) }
{
    let mut runs = Runs::new(alloc);
    runs.try_push(run)?;
    let mut table = PageTable::new(alloc, &runs)?;
    table.reserve(alloc, 2 * run.pages.count + 2)?;
    let span = table.take(run.pages);
    Ok((table, span))
}

/// Opens the span's pages to the host, and takes them back.
fn share_and_take_back<P: Port>(port: &mut P, span: &mut Span) -> bool
    requires room { 2 ≤ P.room port.old }
    requires accepted { SpanIs Accepted span.old }
    ensures { span.new.ticket ≡ span.old.ticket }
{
    port.share(span) == PortAnswer::Ok && port.unshare(span) == PortAnswer::Ok
}

/// Gives the span's pages back to the host.
fn give_back<P: Port>(port: &mut P, span: &mut Span) -> PortAnswer
    requires room { 0 < P.room port.old }
    requires accepted { SpanIs Accepted span.old }
    ensures ticket { span.new.ticket ≡ span.old.ticket }
    ensures failed { result ≡ PortAnswer.Failed → SpanIs Accepted span.new }
{
    port.give(span)
}

/// Accepts the first pending page of the span.
fn accept_first<P: Port>(port: &mut P, span: &mut Span) -> Option<PortAnswer>
    requires room { 0 < P.room port.old }
    ensures { span.new.ticket ≡ span.old.ticket }
{
    let run = span.next_pending(Page(0))?;
    Some(port.accept(span, Page(run.first), Level::Small, Level::Huge))
}

fn run(first: u64, count: u64, state: PageState) -> PageRun
    ensures { result ≡ record { pages = record { first = first; count = count }; state = state } }
{
    let pages = Pages { first, count };
    PageRun { pages, state }
}

#[test]
fn shared_pages_come_back_pending(rt: HostRuntime) -> Result<(), Fail> {
    let (mut table, mut span) = taken(rt.alloc(), run(0x100, 4, PageState::Accepted))?;
    assert_eq!(rt; table.state(Page(0x101)), None);
    let mut port = MemPort::new(rt.alloc(), Vec::new(rt.alloc()));
    port.reserve(rt.alloc(), 2)?;
    assert!(rt; share_and_take_back(&mut port, &mut span));
    table.put(span);
    assert_eq!(rt; table.state(Page(0x101)), Some(PageState::Pending));
    assert_eq!(rt; table.state(Page(0x104)), None);
    Ok(())
}

#[test]
fn pages_given_back_come_back_pending(rt: HostRuntime) -> Result<(), Fail> {
    let (mut table, mut span) = taken(rt.alloc(), run(0x100, 4, PageState::Accepted))?;
    let mut port = MemPort::new(rt.alloc(), vec![in rt.alloc(); 1]?);
    port.reserve(rt.alloc(), 1)?;
    assert_eq!(rt; give_back(&mut port, &mut span), PortAnswer::Failed);
    assert_eq!(rt; span.state(Page(0x103)), PageState::Accepted);
    port.reserve(rt.alloc(), 1)?;
    assert_eq!(rt; give_back(&mut port, &mut span), PortAnswer::Ok);
    table.put(span);
    assert_eq!(rt; table.state(Page(0x103)), Some(PageState::Pending));
    assert_eq!(rt; table.state(Page(0x104)), None);
    Ok(())
}

#[test]
fn accepted_page_is_a_run_of_its_own(rt: HostRuntime) -> Result<(), Fail> {
    let (mut table, mut span) = taken(rt.alloc(), run(0x100, 4, PageState::Pending))?;
    let mut port = MemPort::new(rt.alloc(), vec![in rt.alloc(); 1]?);
    port.reserve(rt.alloc(), 1)?;
    assert_eq!(rt;
        accept_first(&mut port, &mut span),
        Some(PortAnswer::Failed)
    );
    port.reserve(rt.alloc(), 1)?;
    assert_eq!(rt; accept_first(&mut port, &mut span), Some(PortAnswer::Ok));
    table.put(span);
    let listed = table.runs(rt.alloc())?;
    let expected = [
        run(0x100, 1, PageState::Accepted),
        run(0x101, 3, PageState::Pending),
    ];
    assert_eq!(rt; listed.as_slice(), expected.as_slice());
    Ok(())
}
