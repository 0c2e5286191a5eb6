//! A port with a gate.
ghost use Rattle.std.specs.Prelude.{◌≡◌, ◌<◌, ◌≤◌, [], IfOk, OnOk};
ghost use Rattle.guest_base.specs.declared.memory.PageState.TheVariants.{Pending, Accepted, Shared};
ghost use Rattle.event_core.specs.declared.module_call.CallKind.TheVariants.{Share, Unshare, Give};
ghost use Rattle.page_module.specs.Spans.{SpanIs};
ghost use Rattle.page_module.specs.Modules.{MayAccept, answer_by, accept_call, span_call, MakesCall};

use event_core::{CallKind, PortAnswer};
use guest_base::{Level, Page, PageState};
use page_module::{CallLog, Port, Span, answer_without_fault};
use std::alloc::{AllocError, Global};
use std::sync::Arc;
use std::sync::atomic::AtomicBool;
use std::sync::atomic::Ordering::SeqCst;
use std::thread;

/// How often an accept call looks for the other port's processor before it fails.
const LOOKS: u32 = 100_000_000;
/// The looks after which a processor lets others run.
const LOOKS_AT_ONCE: u32 = 1000;

/// One of a pair of ports. An accept call fails where the other port's processor never comes to one of its accept calls while it
/// looks for it; once both have come, and in all other calls, no call fails.
#[derive(Drop)]
pub struct GatePort {
    log: CallLog,
    faults: u64,
    /// The looks of an accept call.
    looks: u32,
    /// Whether this port's processor has come to an accept call.
    here: Arc<AtomicBool>,
    /// Whether the other port's processor has.
    there: Arc<AtomicBool>,
}

impl GatePort {
    ghost use Rattle.gate_port.specs.Gate.{calls_made, faults_of, room_of, IsOpen, PassesOrFails};

    /// Two ports, each of which looks for the other's processor. Being out of memory is the only error.
    pub fn pair(alloc: Global) -> Result<(GatePort, GatePort), AllocError>
        ensures made { IfOk result
            (λ ports. (calls_made ports.0 ≡ []) × (calls_made ports.1 ≡ [])) }
        ensures faults { IfOk result (λ ports. (faults_of ports.0 ≡ 0) × (faults_of ports.1 ≡ 0)) }
    {
        GatePort::pair_looking(alloc, LOOKS)
    }

    /// Two ports, whose accept calls look this often.
    pub(crate) fn pair_looking(
        alloc: Global,
        looks: u32,
    ) -> Result<(GatePort, GatePort), AllocError>
        ensures made { IfOk result
            (λ ports. (calls_made ports.0 ≡ []) × (calls_made ports.1 ≡ [])) }
        ensures faults { IfOk result (λ ports. (faults_of ports.0 ≡ 0) × (faults_of ports.1 ≡ 0)) }
    {
        let one = Arc::new(alloc, AtomicBool::new(false))?;
        let other = Arc::new(alloc, AtomicBool::new(false))?;
        let first = GatePort {
            log: CallLog::new(alloc),
            faults: 0,
            looks,
            here: Arc::try_clone(&one)?,
            there: Arc::try_clone(&other)?,
        };
        let second = GatePort {
            log: CallLog::new(alloc),
            faults: 0,
            looks,
            here: other,
            there: one,
        };
        Ok((first, second))
    }

    /// Tells the other port's processor that this one has come, and looks whether that one has.
    fn meets(&self) -> bool {
        self.here.store(true, SeqCst);
        for look in 0..self.looks {
            if self.there.load(SeqCst) {
                return true;
            }
            if look % LOOKS_AT_ONCE == 0 {
                thread::yield_now();
            }
        }
        false
    }

    /// The answer at the gate: `honest`, the answer without a fault, or Failed where it is closed.
    fn answer(&mut self, honest: PortAnswer) -> PortAnswer
        ensures answers { PassesOrFails self.old self.new honest result }
        ensures faults_kept { self.old.faults ≤ self.new.faults }
        ensures rest { self.new ≡ record self.old { faults = self.new.faults } }
    {
        if self.meets() {
            honest
        } else {
            self.faults = self.faults.saturating_add(1);
            PortAnswer::Failed
        }
    }
}

impl Port for GatePort {
    ghost use Rattle.gate_port.specs.Gate.{calls_made, faults_of, room_of, IsOpen, PassesOrFails};

    ghost made = { calls_made };

    ghost faults = { faults_of };

    ghost room = { room_of };

    ghost never_fails = { λ _. ⊥ };

    ghost no_fault = { λ _ h. absurd h };

    fn reserve(&mut self, _alloc: Global, calls: u64) -> Result<(), AllocError>
        ensures ok { OnOk result (calls ≤ room_of self.new) }
        ensures room_kept { room_of self.old ≤ room_of self.new }
        ensures made { calls_made self.new ≡ calls_made self.old }
        ensures faults { faults_of self.new ≡ faults_of self.old }
    {
        self.log.reserve(calls)
    }

    fn accept(&mut self, span: &mut Span, at: Page, level: Level, host: Level) -> PortAnswer
        requires room { 0 < room_of self.old }
        requires may { MayAccept span.old at.0 level }
        ensures made { MakesCall calls_made room_of self.old self.new Accepted span.old span.new
            (accept_call at.0 level result) }
        ensures answers { PassesOrFails self.old self.new (answer_by level host) result }
        ensures faults_kept { faults_of self.old ≤ faults_of self.new }
    {
        let answer = self.answer(answer_without_fault(level, host));
        self.log.make_accept(span, at, level, answer);
        answer
    }

    fn share(&mut self, span: &mut Span) -> PortAnswer
        requires room { 0 < room_of self.old }
        requires accepted { SpanIs Accepted span.old }
        ensures made { MakesCall calls_made room_of self.old self.new Shared span.old span.new
            (span_call Share span.old result) }
        ensures answers { IsOpen self.old self.new PortAnswer.Ok result }
    {
        let answer = PortAnswer::Ok;
        self.log
            .make_for_all(span, CallKind::Share, PageState::Shared, answer);
        answer
    }

    fn unshare(&mut self, span: &mut Span) -> PortAnswer
        requires room { 0 < room_of self.old }
        requires shared { SpanIs Shared span.old }
        ensures made { MakesCall calls_made room_of self.old self.new Pending span.old span.new
            (span_call Unshare span.old result) }
        ensures answers { IsOpen self.old self.new PortAnswer.Ok result }
    {
        let answer = PortAnswer::Ok;
        self.log
            .make_for_all(span, CallKind::Unshare, PageState::Pending, answer);
        answer
    }

    fn give(&mut self, span: &mut Span) -> PortAnswer
        requires room { 0 < room_of self.old }
        requires accepted { SpanIs Accepted span.old }
        ensures made { MakesCall calls_made room_of self.old self.new Pending span.old span.new
            (span_call Give span.old result) }
        ensures answers { IsOpen self.old self.new PortAnswer.Ok result }
    {
        let answer = PortAnswer::Ok;
        self.log
            .make_for_all(span, CallKind::Give, PageState::Pending, answer);
        answer
    }
}
