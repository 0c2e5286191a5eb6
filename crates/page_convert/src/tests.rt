ghost use Rattle.std.specs.Prelude.{◌≡◌, ◌<◌, ◌≤◌, IfOk, OnOk};
ghost use Rattle.guest_base.specs.declared.limits.TheConstants.{PAGE_END};
ghost use Rattle.guest_base.specs.declared.memory.PageState.TheVariants.{Accepted};
ghost use Rattle.event_core.specs.Cut.{pages_end};
ghost use Rattle.event_core.specs.declared.event.ConvertEnd.TheVariants.{Refused};
ghost use Rattle.page_module.specs.Spans.{SpanIs};
ghost use Rattle.page_convert.specs.Conversions.{AllOrNoneShared};

use crate::{to_host, to_private, to_shared};
use accept_sizes::most_calls;
use event_core::{CallKind, Calls, ConvertEnd, Hosts, ModuleCall, PortAnswer, Runs};
use guest_base::{Level, Page, PageRun, PageState, Pages};
use page_module::{CallLog, MemPort, PageTable, Port, Span};
use std::alloc::{AllocError, Global};
use std::test::Fail;

/// A span of these pages, all of them Accepted.
fn accepted_span(alloc: Global, pages: Pages) -> Result<Span, AllocError>
    requires some { 0 < pages.count }
    requires end { pages_end pages ≤ PAGE_END }
    ensures pages { IfOk result (λ span. span.ticket.pages ≡ pages) }
    ensures states { IfOk result (SpanIs Accepted) }
{
    let mut runs = Runs::new(alloc);
    let state = PageState::Accepted;
    runs.try_push(PageRun { pages, state })?;
    let mut table = PageTable::new(alloc, &runs)?;
    table.reserve(alloc, 2 * pages.count + 2)?;
    Ok(table.take(pages))
}

/// How sharing a span ends, and its calls.
fn share(
    alloc: Global,
    port: &mut MemPort,
    span: &mut Span,
) -> Result<(ConvertEnd, Calls), AllocError>
    requires { SpanIs Accepted span.old }
    ensures ticket { span.new.ticket ≡ span.old.ticket }
    ensures shared { OnOk result (AllOrNoneShared span.new) }
    ensures refused { IfOk result (λ x. x.0 ≡ Refused → SpanIs Accepted span.new) }
{
    port.reserve(alloc, 1)?;
    let mut log = CallLog::with_room(alloc, 1)?;
    let end = to_shared(port, span, &mut log);
    Ok((end, log.into_calls()))
}

/// How making a span private ends, and its calls.
fn make_private(
    alloc: Global,
    port: &mut MemPort,
    span: &mut Span,
) -> Result<(ConvertEnd, Calls), AllocError>
    requires { AllOrNoneShared span.old }
    ensures ticket { span.new.ticket ≡ span.old.ticket }
    ensures shared { OnOk result (AllOrNoneShared span.new) }
{
    let room = 1 + most_calls(span.pages().count);
    port.reserve(alloc, room)?;
    let mut log = CallLog::with_room(alloc, room)?;
    let end = to_private(port, span, &Hosts::new(alloc), &mut log);
    Ok((end, log.into_calls()))
}

/// How giving a span back ends, and its calls.
fn give_back(
    alloc: Global,
    port: &mut MemPort,
    span: &mut Span,
) -> Result<(ConvertEnd, Calls), AllocError>
    requires { SpanIs Accepted span.old }
    ensures ticket { span.new.ticket ≡ span.old.ticket }
    ensures refused { IfOk result (λ x. x.0 ≡ Refused → SpanIs Accepted span.new) }
{
    port.reserve(alloc, 1)?;
    let mut log = CallLog::with_room(alloc, 1)?;
    let end = to_host(port, span, &mut log);
    Ok((end, log.into_calls()))
}

fn whole_call(kind: CallKind, pages: Pages, answer: PortAnswer) -> ModuleCall {
    ModuleCall {
        kind,
        first: pages.first,
        count: pages.count,
        level: Level::Small,
        answer,
    }
}

fn accept_call(first: u64, level: Level, answer: PortAnswer) -> ModuleCall {
    ModuleCall {
        kind: CallKind::Accept,
        first,
        count: level.pages(),
        level,
        answer,
    }
}

#[test]
fn shares_and_takes_back(rt: HostRuntime) -> Result<(), Fail> {
    let alloc = rt.alloc();
    let pages = Pages {
        first: 0x400,
        count: 1,
    };
    let mut span = accepted_span(alloc, pages)?;
    let mut port = MemPort::new(alloc, Vec::new(alloc));
    let (end, calls) = share(alloc, &mut port, &mut span)?;
    assert_eq!(rt; end, ConvertEnd::Converted);
    let expected = [whole_call(CallKind::Share, pages, PortAnswer::Ok)];
    assert_eq!(rt; calls.as_slice(), expected.as_slice());
    assert_eq!(rt; span.state(Page(0x400)), PageState::Shared);
    let (end, calls) = make_private(alloc, &mut port, &mut span)?;
    assert_eq!(rt; end, ConvertEnd::Converted);
    let expected = [
        whole_call(CallKind::Unshare, pages, PortAnswer::Ok),
        accept_call(0x400, Level::Small, PortAnswer::Ok),
    ];
    assert_eq!(rt; calls.as_slice(), expected.as_slice());
    assert_eq!(rt; span.state(Page(0x400)), PageState::Accepted);
    Ok(())
}

#[test]
fn goes_on_without_an_unshare_call(rt: HostRuntime) -> Result<(), Fail> {
    let alloc = rt.alloc();
    let pages = Pages {
        first: 0x400,
        count: 1,
    };
    let mut span = accepted_span(alloc, pages)?;
    let mut port = MemPort::new(alloc, vec![in alloc; 3]?);
    share(alloc, &mut port, &mut span)?;
    let (end, calls) = make_private(alloc, &mut port, &mut span)?;
    assert_eq!(rt; end, ConvertEnd::Half(Page(0x400)));
    let expected = [
        whole_call(CallKind::Unshare, pages, PortAnswer::Ok),
        accept_call(0x400, Level::Small, PortAnswer::Failed),
    ];
    assert_eq!(rt; calls.as_slice(), expected.as_slice());
    assert_eq!(rt; span.state(Page(0x400)), PageState::Pending);
    let (end, calls) = make_private(alloc, &mut port, &mut span)?;
    assert_eq!(rt; end, ConvertEnd::Converted);
    let expected = [accept_call(0x400, Level::Small, PortAnswer::Ok)];
    assert_eq!(rt; calls.as_slice(), expected.as_slice());
    assert_eq!(rt; span.state(Page(0x400)), PageState::Accepted);
    Ok(())
}

#[test]
fn leaves_what_is_refused(rt: HostRuntime) -> Result<(), Fail> {
    let alloc = rt.alloc();
    let pages = Pages {
        first: 0x400,
        count: 4,
    };
    let mut span = accepted_span(alloc, pages)?;
    let mut port = MemPort::new(alloc, vec![in alloc; 1, 3]?);
    let (end, calls) = share(alloc, &mut port, &mut span)?;
    assert_eq!(rt; calls.len(), 1);
    assert_eq!(rt; span.state(Page(0x403)), PageState::Accepted);
    let ConvertEnd::Refused = end else {
        return Err(Fail::from("not refused"));
    };
    share(alloc, &mut port, &mut span)?;
    assert_eq!(rt; span.state(Page(0x403)), PageState::Shared);
    let (end, calls) = make_private(alloc, &mut port, &mut span)?;
    assert_eq!(rt; end, ConvertEnd::Refused);
    let expected = [whole_call(CallKind::Unshare, pages, PortAnswer::Failed)];
    assert_eq!(rt; calls.as_slice(), expected.as_slice());
    assert_eq!(rt; span.state(Page(0x403)), PageState::Shared);
    Ok(())
}

#[test]
fn goes_on_where_the_acceptance_stopped(rt: HostRuntime) -> Result<(), Fail> {
    let alloc = rt.alloc();
    let pages = Pages {
        first: 0x400,
        count: 512,
    };
    let mut span = accepted_span(alloc, pages)?;
    let mut port = MemPort::new(alloc, vec![in alloc; 3, 100]?);
    share(alloc, &mut port, &mut span)?;
    let (end, calls) = make_private(alloc, &mut port, &mut span)?;
    assert_eq!(rt; end, ConvertEnd::Half(Page(0x460)));
    let mut expected = Vec::new(alloc);
    expected.push(whole_call(CallKind::Unshare, pages, PortAnswer::Ok))?;
    expected.push(accept_call(0x400, Level::Large, PortAnswer::Failed))?;
    for page in 0x400..0x460 {
        expected.push(accept_call(page, Level::Small, PortAnswer::Ok))?;
    }
    expected.push(accept_call(0x460, Level::Small, PortAnswer::Failed))?;
    assert_eq!(rt; calls.as_slice(), expected.as_slice());
    let (end, calls) = make_private(alloc, &mut port, &mut span)?;
    assert_eq!(rt; end, ConvertEnd::Converted);
    let mut expected = Vec::new(alloc);
    for page in 0x460..0x600 {
        expected.push(accept_call(page, Level::Small, PortAnswer::Ok))?;
    }
    assert_eq!(rt; calls.as_slice(), expected.as_slice());
    Ok(())
}

#[test]
fn gives_back(rt: HostRuntime) -> Result<(), Fail> {
    let alloc = rt.alloc();
    let pages = Pages {
        first: 0x400,
        count: 4,
    };
    let mut span = accepted_span(alloc, pages)?;
    let mut port = MemPort::new(alloc, vec![in alloc; 1]?);
    let (end, calls) = give_back(alloc, &mut port, &mut span)?;
    let expected = [whole_call(CallKind::Give, pages, PortAnswer::Failed)];
    assert_eq!(rt; calls.as_slice(), expected.as_slice());
    assert_eq!(rt; span.state(Page(0x403)), PageState::Accepted);
    let ConvertEnd::Refused = end else {
        return Err(Fail::from("not refused"));
    };
    let (end, calls) = give_back(alloc, &mut port, &mut span)?;
    assert_eq!(rt; end, ConvertEnd::Converted);
    let expected = [whole_call(CallKind::Give, pages, PortAnswer::Ok)];
    assert_eq!(rt; calls.as_slice(), expected.as_slice());
    assert_eq!(rt; span.state(Page(0x400)), PageState::Pending);
    assert_eq!(rt; span.state(Page(0x403)), PageState::Pending);
    Ok(())
}
