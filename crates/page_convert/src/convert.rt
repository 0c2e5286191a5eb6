//! Conversions of the pages of a span.
ghost use Rattle.std.specs.Prelude.{◌≡◌, ◌⊎◌, List, [], ◌∷◌, ◌+◌, ◌<◌, ◌≤◌, true, false, length};
ghost use Rattle.guest_base.specs.declared.memory.HostRun.{HostRun as HostRunValue};
ghost use Rattle.guest_base.specs.declared.memory.PageState.TheVariants.{Pending, Accepted, Shared};
ghost use Rattle.event_core.specs.declared.module_call.CallKind.TheVariants.{Unshare};
ghost use Rattle.event_core.specs.declared.module_call.ModuleCall.{ModuleCall as CallValue};
ghost use Rattle.event_core.specs.ConvertRows.{accept_end};
ghost use Rattle.event_core.specs.Acceptance.{stop_of};
ghost use Rattle.page_module.specs.Logged.{calls_in, room_in};
ghost use Rattle.page_module.specs.Modules.{Answers, MakesCall, span_call};
ghost use Rattle.page_module.specs.Spans.{SpanIs};
ghost use Rattle.accept_sizes.specs.Accepts.{Accepts};
ghost use Rattle.accept_sizes.specs.Room.{most_calls_of};
ghost use Rattle.page_convert.specs.Asking.{AddsCalls, FailsByFault};
ghost use Rattle.page_convert.specs.Conversions.{AllOrNoneShared, ConvertsSpan, LeavesOnce, LeavesPrivate, NoneShared, end_after, is_shared_span};

use accept_sizes::{RunEnd, accept_run};
use event_core::{CallKind, ConvertEnd, Hosts, ModuleCall, PortAnswer};
use guest_base::{Level, Page, PageState};
use page_module::{CallLog, Port, Span};

/// Opens the span's pages to the host by one share call. `Converted` makes all of them Shared; `Refused` comes only where the port's
/// count of faults rose, and leaves the span as it was; `Half` never comes (after the TDX guest's conversion).
pub fn to_shared<P: Port>(port: &mut P, span: &mut Span, log: &mut CallLog) -> ConvertEnd
    requires accepted { SpanIs Accepted span.old }
    requires room { 0 < P.room port.old }
    requires log_room { 0 < log.old.room }
    ensures calls { (calls : List CallValue)
        × ((hosts : List HostRunValue)
        → ConvertsSpan hosts Shared span.old span.new calls result)
        × AddsCalls P.made P.room port.old port.new calls
        × AddsCalls calls_in room_in log.old log.new calls }
    ensures ticket { span.new.ticket ≡ span.old.ticket }
    ensures left { LeavesOnce Shared span.old span.new result }
    ensures fails { FailsByFault P.faults P.never_fails port.old port.new result }
{
    let answer = port.share(span);
    note_call(span, log, CallKind::Share, answer);
    end_of_call(answer)
}

/// Gives the span's pages back to the host by one give call. `Converted` makes all of them Pending; `Refused` comes only where the
/// port's count of faults rose, and leaves the span as it was; `Half` never comes (own rule).
pub fn to_host<P: Port>(port: &mut P, span: &mut Span, log: &mut CallLog) -> ConvertEnd
    requires accepted { SpanIs Accepted span.old }
    requires room { 0 < P.room port.old }
    requires log_room { 0 < log.old.room }
    ensures calls { (calls : List CallValue)
        × ((hosts : List HostRunValue)
        → ConvertsSpan hosts Pending span.old span.new calls result)
        × AddsCalls P.made P.room port.old port.new calls
        × AddsCalls calls_in room_in log.old log.new calls }
    ensures ticket { span.new.ticket ≡ span.old.ticket }
    ensures left { LeavesOnce Pending span.old span.new result }
    ensures fails { FailsByFault P.faults P.never_fails port.old port.new result }
{
    let answer = port.give(span);
    note_call(span, log, CallKind::Give, answer);
    end_of_call(answer)
}

/// Makes the span's pages private. Shared pages are taken back from the host by one unshare call first; then, or at once where none
/// is Shared, those that are Pending are accepted by sizes, as by `accept_run`.
///
/// `Converted` leaves all of them Accepted. `Refused` tells that the unshare call failed, and leaves the span as it was. `Half(page)`
/// tells that the acceptance stopped at this page: no page is Shared any more, and the same call goes on there. Both come only
/// where the port's count of faults rose (after the TDX guest's conversion; going on is an own rule).
pub fn to_private<P: Port>(
    port: &mut P,
    span: &mut Span,
    hosts: &Hosts,
    log: &mut CallLog,
) -> ConvertEnd
    requires shared { AllOrNoneShared span.old }
    requires room { 1 + most_calls_of span.old.ticket.pages.count ≤ P.room port.old }
    requires log_room { 1 + most_calls_of span.old.ticket.pages.count ≤ log.old.room }
    ensures calls { (calls : List CallValue)
        × ConvertsSpan hosts.now Accepted span.old span.new calls result
        × AddsCalls P.made P.room port.old port.new calls
        × AddsCalls calls_in room_in log.old log.new calls
        × (length calls ≤ 1 + most_calls_of span.old.ticket.pages.count) }
    ensures ticket { span.new.ticket ≡ span.old.ticket }
    ensures left { LeavesPrivate span.old span.new result }
    ensures fails { FailsByFault P.faults P.never_fails port.old port.new result }
{
    if !has_shared_pages(span) {
        return accept_pending(port, span, hosts, log);
    }
    match take_back(port, span, log) {
        PortAnswer::Ok => accept_pending(port, span, hosts, log),
        PortAnswer::SizeMismatch | PortAnswer::Failed => ConvertEnd::Refused,
    }
}

/// Whether the span's pages are Shared, of which all are or none is.
fn has_shared_pages(span: &Span) -> bool
    requires { AllOrNoneShared span.now }
    ensures value { result ≡ is_shared_span span.now }
    ensures shared { result ≡ true → SpanIs Shared span.now }
    ensures unshared { result ≡ false → NoneShared span.now }
{
    let pages = span.pages();
    pages.count > 0 && span.state(Page(pages.first)) == PageState::Shared
}

/// Takes the span's pages, which are all Shared, back from the host by one call, and notes it.
fn take_back<P: Port>(port: &mut P, span: &mut Span, log: &mut CallLog) -> PortAnswer
    requires shared { SpanIs Shared span.old }
    requires room { 0 < P.room port.old }
    requires log_room { 0 < log.old.room }
    ensures made { MakesCall P.made P.room port.old port.new Pending span.old span.new
        (span_call Unshare span.old result) }
    ensures noted { AddsCalls calls_in room_in log.old log.new
        (span_call Unshare span.old result ∷ []) }
    ensures answers { Answers P.faults P.never_fails port.old port.new PortAnswer.Ok result }
{
    let answer = port.unshare(span);
    note_call(span, log, CallKind::Unshare, answer);
    answer
}

/// Accepts the span's pending pages by sizes.
fn accept_pending<P: Port>(
    port: &mut P,
    span: &mut Span,
    hosts: &Hosts,
    log: &mut CallLog,
) -> ConvertEnd
    requires unshared { NoneShared span.old }
    requires room { most_calls_of span.old.ticket.pages.count ≤ P.room port.old }
    requires log_room { most_calls_of span.old.ticket.pages.count ≤ log.old.room }
    ensures calls { (calls : List CallValue) × Accepts hosts.now span.old span.new calls
        × (result ≡ accept_end (stop_of calls))
        × AddsCalls P.made P.room port.old port.new calls
        × AddsCalls calls_in room_in log.old log.new calls
        × (length calls ≤ most_calls_of span.old.ticket.pages.count) }
    ensures ticket { span.new.ticket ≡ span.old.ticket }
    ensures left { LeavesPrivate span.old span.new result }
    ensures fails { FailsByFault P.faults P.never_fails port.old port.new result }
{
    match accept_run(port, span, hosts, log) {
        RunEnd::Whole => ConvertEnd::Converted,
        RunEnd::Stopped(page) => ConvertEnd::Half(page),
    }
}

/// Notes a call for all pages of the span.
fn note_call(span: &Span, log: &mut CallLog, kind: CallKind, answer: PortAnswer)
    requires { 0 < log.old.room }
    ensures { AddsCalls calls_in room_in log.old log.new
        (span_call kind span.now answer ∷ []) }
{
    let pages = span.pages();
    log.note(ModuleCall {
        kind,
        first: pages.first,
        count: pages.count,
        level: Level::Small,
        answer,
    });
}

/// How a conversion by one call ends.
fn end_of_call(answer: PortAnswer) -> ConvertEnd
    ensures { result ≡ end_after answer }
{
    match answer {
        PortAnswer::Ok => ConvertEnd::Converted,
        PortAnswer::SizeMismatch | PortAnswer::Failed => ConvertEnd::Refused,
    }
}
