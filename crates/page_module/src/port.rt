//! Ports to the secure module.
ghost use Rattle.std.specs.Prelude.{◌≡◌, ℕ, List, ◌<◌, ◌≤◌, OnOk};
ghost use Rattle.guest_base.specs.declared.memory.PageState.TheVariants.{Pending, Accepted, Shared};
ghost use Rattle.event_core.specs.declared.module_call.ModuleCall.{ModuleCall};
ghost use Rattle.event_core.specs.declared.module_call.CallKind.TheVariants.{Share, Unshare, Give};
ghost use Rattle.page_module.specs.Spans.{SpanIs};
ghost use Rattle.page_module.specs.Modules.{MayAccept, answer_by, accept_call, span_call, MakesCall, Answers};

use crate::span::Span;
use event_core::PortAnswer;
use guest_base::{Level, Page};
use std::alloc::{AllocError, Global};

/// One processor's way to the secure module.
///
/// Every call of the module is recorded, whatever its answer. A count of faults that stands at its last
/// value, 2^64 - 1, counts as one that rose.
pub trait Port {
    /// The calls of the module, in order.
    ghost made: { Self → List ModuleCall };

    /// How often the module failed.
    ghost faults: { Self → ℕ };

    /// How many calls can be made without memory.
    ghost room: { Self → ℕ };

    /// No call ever fails.
    ghost never_fails: { Self → Type 0 };

    /// Takes room for `calls` more calls. Nothing else changes.
    fn reserve(&mut self, alloc: Global, calls: u64) -> Result<(), AllocError>
        ensures ok { OnOk result (calls ≤ room self.new) }
        ensures room_kept { room self.old ≤ room self.new }
        ensures made { made self.new ≡ made self.old }
        ensures faults { faults self.new ≡ faults self.old }
        ensures never_fails_kept { never_fails self.old → never_fails self.new };

    /// Asks the module to accept the pages of one call of `level` from `at` on, which the host has mapped
    /// at `host`. Ok makes them Accepted.
    ///
    /// `Failed` comes only where the count of faults rises. `SizeMismatch` comes exactly where the call
    /// doesn't fail and `host` is smaller than `level`. After both the span is unchanged.
    fn accept(&mut self, span: &mut Span, at: Page, level: Level, host: Level) -> PortAnswer
        requires room { 0 < room self.old }
        requires may { MayAccept span.old at.0 level }
        ensures made { MakesCall made room self.old self.new Accepted span.old span.new
            (accept_call at.0 level result) }
        ensures answers { Answers faults never_fails self.old self.new (answer_by level host)
            result };

    /// Asks the module to open the span's pages, which are all Accepted, to the host. Ok makes all Shared.
    ///
    /// `Failed` comes only where the count of faults rises, and leaves the span unchanged.
    fn share(&mut self, span: &mut Span) -> PortAnswer
        requires room { 0 < room self.old }
        requires accepted { SpanIs Accepted span.old }
        ensures made { MakesCall made room self.old self.new Shared span.old span.new
            (span_call Share span.old result) }
        ensures answers { Answers faults never_fails self.old self.new PortAnswer.Ok result };

    /// Asks the module to take the span's pages, which are all Shared, back from the host. Ok makes all
    /// Pending.
    ///
    /// `Failed` comes only where the count of faults rises, and leaves the span unchanged.
    fn unshare(&mut self, span: &mut Span) -> PortAnswer
        requires room { 0 < room self.old }
        requires shared { SpanIs Shared span.old }
        ensures made { MakesCall made room self.old self.new Pending span.old span.new
            (span_call Unshare span.old result) }
        ensures answers { Answers faults never_fails self.old self.new PortAnswer.Ok result };

    /// Asks the module to give the span's pages, which are all Accepted, back to the host. Ok makes all
    /// Pending.
    ///
    /// `Failed` comes only where the count of faults rises, and leaves the span unchanged.
    fn give(&mut self, span: &mut Span) -> PortAnswer
        requires room { 0 < room self.old }
        requires accepted { SpanIs Accepted span.old }
        ensures made { MakesCall made room self.old self.new Pending span.old span.new
            (span_call Give span.old result) }
        ensures answers { Answers faults never_fails self.old self.new PortAnswer.Ok result };

    /// What never fails has no fault.
    ghost no_fault: { (port : Self) → never_fails port → faults port ≡ 0 };
}

/// The answer to an accept call of `level` that doesn't fail, where the host has mapped at `host`.
pub fn answer_without_fault(level: Level, host: Level) -> PortAnswer
    ensures { result ≡ answer_by level host }
{
    if host.pages() < level.pages() {
        PortAnswer::SizeMismatch
    } else {
        PortAnswer::Ok
    }
}
