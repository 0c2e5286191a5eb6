//! The steps of an acceptance.
ghost use Rattle.std.specs.Prelude.{◌≡◌, ◌≢◌, ◌⊎◌, ℕ, List, [], ◌∷◌, ◌++◌, ◌+◌, ◌<◌, ◌≤◌, length, Bool, true, false, Option, None, Some};
ghost use Rattle.guest_base.specs.Counts.{Rose};
ghost use Rattle.guest_base.specs.declared.limits.TheConstants.{PAGE_END};
ghost use Rattle.guest_base.specs.Levels.{level_at, level_pages};
ghost use Rattle.guest_base.specs.declared.memory.PageState.TheVariants.{Accepted};
ghost use Rattle.guest_base.specs.declared.memory.Level.TheVariants.{Small};
ghost use Rattle.event_core.specs.declared.module_call.ModuleCall.{ModuleCall};
ghost use Rattle.event_core.specs.Acceptance.{stop_of};
ghost use Rattle.accept_sizes.specs.Trying.{fits_left, level_below};
ghost use Rattle.page_module.specs.Modules.{MayAccept, answer_by, accept_call, AfterCall};
ghost use Rattle.accept_sizes.specs.Room.{most_calls_of, KeepsRoom};
ghost use Rattle.accept_sizes.specs.Accepts.{Accepts, span_end};
ghost use Rattle.accept_sizes.specs.Ends.{stopped_at};

use event_core::{CallKind, Hosts, ModuleCall, PortAnswer};
use guest_base::{Level, Page};
use page_module::{CallLog, Port, Span};

/// How the acceptance of a span's pending pages ended.
#[derive(Clone, Copy, Debug, PartialEq, Eq)]
pub enum RunEnd {
    /// Every page that was Pending is Accepted.
    Whole,
    /// The Small call at this page failed. The pages before it are Accepted, and it and all after it are as
    /// before.
    Stopped(Page),
}

/// The most calls that the acceptance of this many pages makes.
pub fn most_calls(pages: u64) -> u64
    requires { pages ≤ PAGE_END }
    ensures { result ≡ most_calls_of pages }
{
    pages + pages / 512 + pages / 262_144
}

/// Whether a call of this level may be made at a place from which this many pages are pending.
fn is_level_fitting(level: Level, place: u64, left: u64) -> bool
    ensures { result ≡ fits_left place left level }
{
    place % level.pages() == 0 && level.pages() <= left
}

/// The greatest level that fits at a place from which this many pages are pending, below the one that was
/// tried there.
fn level_to_try(place: u64, left: u64, tried: Option<Level>) -> Level
    ensures { result ≡ level_below place left tried }
{
    match tried {
        None if is_level_fitting(Level::Huge, place, left) => Level::Huge,
        None | Some(Level::Huge) if is_level_fitting(Level::Large, place, left) => Level::Large,
        _ => Level::Small,
    }
}

/// Makes one accept call, and notes it.
fn try_call<P: Port>(
    port: &mut P,
    span: &mut Span,
    hosts: &Hosts,
    log: &mut CallLog,
    place: Page,
    level: Level,
) -> PortAnswer
    requires room { 0 < P.room port.old }
    requires log_room { 0 < log.old.room }
    requires may { MayAccept span.old place.0 level }
    ensures made { P.made port.new ≡ P.made port.old ++ accept_call place.0 level result ∷ [] }
    ensures noted { log.new.calls ≡ log.old.calls ++ accept_call place.0 level result ∷ [] }
    ensures room { P.room port.old ≤ P.room port.new + 1 }
    ensures log_room { log.old.room ≤ log.new.room + 1 }
    ensures answer { (result ≡ PortAnswer.Failed)
        ⊎ (result ≡ answer_by level (level_at hosts.now place.0)) }
    ensures failed { result ≡ PortAnswer.Failed → Rose (P.faults port.old) (P.faults port.new) }
    ensures after { AfterCall Accepted span.old span.new place.0 (level_pages level) result }
    ensures faults { P.faults port.old ≤ P.faults port.new }
    ensures never_fails { P.never_fails port.old → P.never_fails port.new }
{
    let answer = port.accept(span, place, level, hosts.level(place));
    log.note(ModuleCall {
        kind: CallKind::Accept,
        first: place.0,
        count: level.pages(),
        level,
        answer,
    });
    answer
}

/// Accepts the span's pending pages, run by run from the lowest: at each place 1 GiB is tried, then 2 MiB,
/// then 4 KiB, as far as the place is aligned and enough pending pages are left. A call that isn't answered
/// Ok falls to the next size; a 4 KiB call that isn't ends the work, and `Stopped` tells its page. It comes
/// only where the port's count of faults rose (after the TDX guest's acceptance). Of the room of the port and
/// of the log, each call takes one place at most.
pub fn accept_run<P: Port>(
    port: &mut P,
    span: &mut Span,
    hosts: &Hosts,
    log: &mut CallLog,
) -> RunEnd
    requires room { most_calls_of span.old.ticket.pages.count ≤ P.room port.old }
    requires log_room { most_calls_of span.old.ticket.pages.count ≤ log.old.room }
    ensures calls { (calls : List ModuleCall) × (log.new.calls ≡ log.old.calls ++ calls)
        × (P.made port.new ≡ P.made port.old ++ calls)
        × Accepts hosts.now span.old span.new calls × (stop_of calls ≡ stopped_at result) }
    ensures few { length (P.made port.new)
        ≤ length (P.made port.old) + most_calls_of span.old.ticket.pages.count }
    ensures room { KeepsRoom (P.made port.old) (P.made port.new)
        (P.room port.old) (P.room port.new) }
    ensures log_room { KeepsRoom log.old.calls log.new.calls log.old.room log.new.room }
    ensures stopped { stopped_at result ≢ None → Rose (P.faults port.old) (P.faults port.new) }
    ensures faults { P.faults port.old ≤ P.faults port.new }
    ensures never_fails { P.never_fails port.old → P.never_fails port.new }
{
    let mut from = span.pages().first;
    let mut tried = None;
    while let Some(run) = span.next_pending(Page(from)) {
        let level = level_to_try(run.first, run.count, tried);
        let answer = try_call(port, span, hosts, log, Page(run.first), level);
        if answer == PortAnswer::Ok {
            from = run.first + level.pages();
            tried = None;
        } else if level == Level::Small {
            return RunEnd::Stopped(Page(run.first));
        } else {
            from = run.first;
            tried = Some(level);
        }
    }
    RunEnd::Whole
}
