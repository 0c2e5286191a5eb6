//! A port in memory.
ghost use Rattle.std.specs.Prelude.{◌≡◌, ◌<◌, ◌≤◌, [], OnOk};
ghost use Rattle.guest_base.specs.declared.memory.PageState.TheVariants.{Pending, Accepted, Shared};
ghost use Rattle.event_core.specs.declared.module_call.CallKind.TheVariants.{Share, Unshare, Give};
ghost use Rattle.page_module.specs.Spans.{SpanIs};
ghost use Rattle.page_module.specs.Modules.{MayAccept, answer_by, accept_call, span_call, MakesCall};

use crate::log::CallLog;
use crate::port::{Port, answer_without_fault};
use crate::span::Span;
use event_core::{CallKind, PortAnswer};
use guest_base::{Level, Page, PageState};
use std::alloc::{AllocError, Global};

/// A port that fails at the calls that it is told to fail at, and does every other.
#[derive(Debug, Drop)]
pub struct MemPort {
    log: CallLog,
    /// The calls that fail, counted from 1.
    failing: Vec<u64>,
    faults: u64,
}

impl MemPort {
    ghost use Rattle.page_module.specs.MemPort.{calls_made, faults_of, room_of, failing_of, NeverFails, FailsAsTold};

    /// A port that fails at the calls whose numbers are in `failing`: calls of every kind are counted together,
    /// from 1. With no number in it, it never fails.
    pub fn new(alloc: Global, failing: Vec<u64>) -> MemPort
        ensures made { calls_made result ≡ [] }
        ensures faults { faults_of result ≡ 0 }
        ensures failing { failing_of result ≡ failing.items }
        ensures never_fails { failing.items ≡ [] → NeverFails result }
    {
        MemPort {
            log: CallLog::new(alloc),
            failing,
            faults: 0,
        }
    }

    /// The answer to the next call: Failed where its number is in `failing`, else `honest`, the answer without
    /// a fault.
    fn answer(&mut self, honest: PortAnswer) -> PortAnswer
        ensures answers { FailsAsTold self.old self.new honest result }
        ensures rest { self.new ≡ record self.old { faults = self.new.faults } }
    {
        let number = self.log.next_number();
        if self.failing.as_slice().contains(&number) {
            self.faults = self.faults.saturating_add(1);
            PortAnswer::Failed
        } else {
            honest
        }
    }

    /// The call of a kind for all pages of a span, which makes them have a state where its answer is Ok.
    fn call_for_all(&mut self, span: &mut Span, kind: CallKind, state: PageState) -> PortAnswer
        requires room { 0 < room_of self.old }
        ensures made { MakesCall calls_made room_of self.old self.new state span.old span.new
            (span_call kind span.old result) }
        ensures answers { FailsAsTold self.old self.new PortAnswer.Ok result }
    {
        let answer = self.answer(PortAnswer::Ok);
        self.log.make_for_all(span, kind, state, answer);
        answer
    }
}

impl Port for MemPort {
    ghost use Rattle.page_module.specs.MemPort.{calls_made, faults_of, room_of, failing_of, NeverFails, FailsAsTold};

    ghost made = { calls_made };

    ghost faults = { faults_of };

    ghost room = { room_of };

    ghost never_fails = { NeverFails };

    ghost no_fault = { λ p h. h.1 };

    fn reserve(&mut self, _alloc: Global, calls: u64) -> Result<(), AllocError>
        ensures ok { OnOk result (calls ≤ room_of self.new) }
        ensures room_kept { room_of self.old ≤ room_of self.new }
        ensures made { calls_made self.new ≡ calls_made self.old }
        ensures faults { faults_of self.new ≡ faults_of self.old }
        ensures failing { failing_of self.new ≡ failing_of self.old }
    {
        self.log.reserve(calls)
    }

    fn accept(&mut self, span: &mut Span, at: Page, level: Level, host: Level) -> PortAnswer
        requires room { 0 < room_of self.old }
        requires may { MayAccept span.old at.0 level }
        ensures made { MakesCall calls_made room_of self.old self.new Accepted span.old span.new
            (accept_call at.0 level result) }
        ensures answers { FailsAsTold self.old self.new (answer_by level host) result }
    {
        let answer = self.answer(answer_without_fault(level, host));
        self.log.make_accept(span, at, level, answer);
        answer
    }

    fn share(&mut self, span: &mut Span) -> PortAnswer
        requires room { 0 < room_of self.old }
        requires accepted { SpanIs Accepted span.old }
        ensures made { MakesCall calls_made room_of self.old self.new Shared span.old span.new
            (span_call Share span.old result) }
        ensures answers { FailsAsTold self.old self.new PortAnswer.Ok result }
    {
        self.call_for_all(span, CallKind::Share, PageState::Shared)
    }

    fn unshare(&mut self, span: &mut Span) -> PortAnswer
        requires room { 0 < room_of self.old }
        requires shared { SpanIs Shared span.old }
        ensures made { MakesCall calls_made room_of self.old self.new Pending span.old span.new
            (span_call Unshare span.old result) }
        ensures answers { FailsAsTold self.old self.new PortAnswer.Ok result }
    {
        self.call_for_all(span, CallKind::Unshare, PageState::Pending)
    }

    fn give(&mut self, span: &mut Span) -> PortAnswer
        requires room { 0 < room_of self.old }
        requires accepted { SpanIs Accepted span.old }
        ensures made { MakesCall calls_made room_of self.old self.new Pending span.old span.new
            (span_call Give span.old result) }
        ensures answers { FailsAsTold self.old self.new PortAnswer.Ok result }
    {
        self.call_for_all(span, CallKind::Give, PageState::Pending)
    }
}
