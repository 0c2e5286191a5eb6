//! The runs of an open claim.
ghost use Rattle.std.specs.Prelude.{◌≡◌, ◌≢◌, [], ◌∷◌, ◌≤◌, ◌<◌, ◌++◌, None, Some, length};
ghost use Rattle.event_core.specs.declared.boot.Boot.{Boot};
ghost use Rattle.page_module.specs.Spans.{LieInMemory};
ghost use Rattle.guest_cpu.specs.Kept.{OpensFirst, RoomOf, TellsWorked, done_of};

use crate::progress::{OpenRun, RunRoom};
use accept_sizes::RunEnd;
use event_core::Calls;
use guest_base::Units;
use page_module::{CallLog, Span};
use std::alloc::Global;
use std::collections::VecDeque;

/// A run that was worked on.
#[derive(Drop)]
pub(crate) struct Worked {
    pub(crate) run: Units,
    pub(crate) span: Span,
    pub(crate) calls: Calls,
    pub(crate) copy: Calls,
    pub(crate) end: RunEnd,
}

/// The open run, which was worked on.
pub(crate) fn worked_run(open_run: Option<OpenRun>) -> Worked
    requires done { done_of open_run ≢ None }
    requires room { (boot : Boot) × RoomOf boot open_run }
    ensures { TellsWorked open_run result }
{
    match open_run {
        Some(open_run) => taken_apart(open_run),
        None => unreachable!(),
    }
}

fn taken_apart(open_run: OpenRun) -> Worked
    requires done { done_of (Some open_run) ≢ None }
    requires room { (boot : Boot) × RoomOf boot (Some open_run) }
    ensures { TellsWorked (Some open_run) result }
{
    let OpenRun { span, room, end } = open_run;
    let RunRoom { run, log, copy } = room;
    lie_in_memory(&span);
    let calls = log.into_calls();
    let copy = copy_into(&calls, copy);
    let end = end_of(end);
    Worked {
        run,
        span,
        calls,
        copy,
        end,
    }
}

/// The pages of a span lie in memory.
fn lie_in_memory(span: &Span)
    ensures { LieInMemory span.now.ticket.pages }
{
    let _ = span.pages();
}

fn end_of(end: Option<RunEnd>) -> RunEnd
    requires { end ≢ None }
    ensures { end ≡ Some result }
{
    match end {
        Some(end) => end,
        None => unreachable!(),
    }
}

/// The same calls, in a log that has room for them.
fn copy_into(calls: &Calls, log: CallLog) -> Calls
    requires empty { log.calls ≡ [] }
    requires room { length calls.now ≤ log.room }
    ensures { result ≡ calls.now }
{
    let mut log = log;
    for call in calls.as_slice() {
        log.note(*call);
    }
    log.into_calls()
}

/// Takes out the first of the runs that there is room for, where its pages are out in a span. Else no run is left to go on with,
/// and the room for the others is dropped.
pub(crate) fn go_on(
    open_run: &mut Option<OpenRun>,
    later: &mut VecDeque<RunRoom>,
    span: Option<Span>,
) -> Option<Units>
    requires rests { open_run.old ≡ None }
    requires some { span ≢ None → later.old.items ≢ [] }
    ensures { OpensFirst span later.old.items open_run.new later.new.items result }
{
    match span {
        Some(span) => match later.pop_front() {
            Some(room) => {
                let run = room.run;
                let end = None;
                *open_run = Some(OpenRun { span, room, end });
                Some(run)
            }
            None => unreachable!(),
        },
        None => {
            later.clear();
            None
        }
    }
}
