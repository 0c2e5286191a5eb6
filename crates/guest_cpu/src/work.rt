//! The work for the pages that are out.
ghost use Rattle.std.specs.Prelude.{◌≡◌, ◌≢◌, [], ◌≤◌, None};
ghost use Rattle.accept_sizes.specs.Room.{most_calls_of};
ghost use Rattle.guest_cpu.specs.Working.{DoesOwed, FitsFirst, IsQuiet, WorkedOn, asked, most_owed};

use crate::progress::{OpenRun, Progress, RunRoom};
use accept_sizes::accept_run;
use event_core::Hosts;
use page_module::Port;

impl Progress {
    /// Does the calls for the pages that are out and weren't worked on, in the room that was taken with their claim.
    pub(crate) fn work<P: Port>(&mut self, port: &mut P)
        requires fits { FitsFirst self.old.boot self.old.out self.old.runs }
        requires room { most_owed self.old.out self.old.done ≤ P.room port.old }
        ensures does { DoesOwed self.old.out self.old.done self.old self.new
            (asked P.made P.faults P.room port.old port.new) }
        ensures faults { P.faults port.old ≤ P.faults port.new }
        ensures never_fails { P.never_fails port.old → P.never_fails port.new }
    {
        match self.open_run.take() {
            Some(open_run) => {
                self.open_run = Some(worked_on(port, &self.hosts, open_run));
            }
            None => {}
        }
    }
}

/// The run with the calls for its pages made, where they weren't.
fn worked_on<P: Port>(port: &mut P, hosts: &Hosts, open_run: OpenRun) -> OpenRun
    requires room { open_run.end ≡ None
        → most_calls_of open_run.span.ticket.pages.count ≤ P.room port.old }
    requires empty { open_run.end ≡ None → open_run.room.log.calls ≡ [] }
    requires log { open_run.end ≡ None
        → most_calls_of open_run.span.ticket.pages.count ≤ open_run.room.log.room }
    ensures done { open_run.end ≢ None → result ≡ open_run }
    ensures quiet { open_run.end ≢ None
        → IsQuiet (asked P.made P.faults P.room port.old port.new) }
    ensures works { open_run.end ≡ None → WorkedOn hosts.now open_run result
        (asked P.made P.faults P.room port.old port.new) }
    ensures faults { P.faults port.old ≤ P.faults port.new }
    ensures never_fails { P.never_fails port.old → P.never_fails port.new }
{
    if open_run.end.is_some() {
        return open_run;
    }
    let OpenRun {
        mut span,
        room,
        end: _,
    } = open_run;
    let RunRoom { run, mut log, copy } = room;
    let end = accept_run(port, &mut span, hosts, &mut log);
    OpenRun {
        span,
        room: RunRoom { run, log, copy },
        end: Some(end),
    }
}
