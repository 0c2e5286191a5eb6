//! The program, from its arguments to its status.
ghost use Rattle.std.specs.Prelude.{◌≡◌, ◌≤◌, [], None, Some, length, All, IfErr, IfNone, IfOk, IfSome, IsErrOf, IsSome, OnOk};
ghost use Rattle.guest_base.specs.declared.limits.TheConstants.{MAX_CPUS};
ghost use Rattle.guest_input.specs.Reading.{reading};
ghost use Rattle.event_core.specs.Printed.{FinalRuns};
ghost use Rattle.guest_text.specs.Putting.{putting};
ghost use Rattle.guest_words.specs.Views.{named, seen};
ghost use Rattle.guest_words.specs.Words.{bytes_of_words, named_by, KeepsLimits};
ghost use Rattle.guest_runs.specs.Asking.{asking};
ghost use Rattle.guest_run.specs.Did.{by_turns, Did};
ghost use Rattle.guest_run.specs.Ends.{outside, RunEnds};
ghost use Rattle.guest_run.specs.Stopping.{EndsWith, StopEnds};

use crate::run::{run_by_turns, run_on_threads};
use event_core::{Recorded, Runs};
use guest_input::{Stop, print_stop};
use guest_io::{Files, PutFault, Sink};
use guest_text::put_run;
use guest_words::{Names, read_words};
use page_module::Port;
use std::alloc::{AllocError, Global};
use std::sync::Wait;
use std::thread::Threads;

/// How the program ended.
#[derive(Debug, Drop)]
pub struct Ended {
    /// 0 done, 2 arguments that don't match the usage line, 3 a refused file or a pool that no range of memory holds, 4 a file that
    /// couldn't be read, 5 text that couldn't be written, 6 out of memory, 7 a boot that stopped.
    pub status: u8,
    /// The run, where there was one.
    pub run: Option<Recorded>,
}

/// The status of a put after which the program would end with `status`.
fn status_after(status: u8, put: Result<(), PutFault>) -> u8
    ensures ok { OnOk put (result ≡ status) }
    ensures failed { IsErrOf put PutFault.Failed → result ≡ 5 }
    ensures no_memory { IsErrOf put PutFault.NoMemory → result ≡ 6 }
{
    match put {
        Ok(()) => status,
        Err(PutFault::Failed) => 5,
        Err(PutFault::NoMemory) => 6,
    }
}

/// Ends without a run: puts a line.
fn end_with_line<K: Sink>(alloc: Global, out: &mut K, status: u8, line: &str) -> Ended
    ensures { EndsWith (putting K.written K.faults out.old out.new) line.now status result }
{
    let put = out.put(alloc, line.as_bytes());
    Ended {
        status: status_after(status, put),
        run: None,
    }
}

/// Ends where the run stopped before its text.
fn end_by<K: Sink>(alloc: Global, out: &mut K, names: &Names<'_>, stop: Stop) -> Ended
    ensures run { result.run ≡ None }
    ensures ends { StopEnds
        (putting K.written K.faults out.old out.new) (seen names.now) stop result }
{
    match print_stop(alloc, names, stop) {
        Ok(line) => end_with_line(alloc, out, stop.status(), line.as_str()),
        Err(AllocError) => Ended {
            status: 6,
            run: None,
        },
    }
}

/// Ends with a run: puts its text.
fn end_with_run<K: Sink>(alloc: Global, out: &mut K, recorded: Recorded, runs: &Runs) -> Ended
    requires { FinalRuns recorded runs.now }
    ensures { RunEnds (putting K.written K.faults out.old out.new) recorded result }
{
    let put = put_run(alloc, out, &recorded, runs);
    Ended {
        status: status_after(0, put),
        run: Some(recorded),
    }
}

/// What the words name, where they name an order: a run by turns.
fn names_by_turns(words: &[String]) -> Option<Names<'_>>
    ensures named { named result ≡ by_turns (named_by (bytes_of_words words.now)) }
    ensures limits { IfSome result (λ names. KeepsLimits (seen names)) }
    ensures ordered { IfSome result (λ names. IsSome (seen names).order) }
{
    let names = read_words(words)?;
    if names.order.is_some() {
        Some(names)
    } else {
        None
    }
}

/// What the words name, where they name files and no order: a run on threads.
fn names_on_threads(words: &[String]) -> Option<Names<'_>>
    ensures named { IfSome result (λ names.
        named_by (bytes_of_words words.now) ≡ Some (seen names)) }
    ensures limits { IfSome result (λ names. KeepsLimits (seen names)) }
    ensures unordered { IfSome result (λ names. (seen names).order ≡ None) }
    ensures none { IfNone result (by_turns (named_by (bytes_of_words words.now))
        ≡ named_by (bytes_of_words words.now)) }
{
    let names = read_words(words)?;
    if names.order.is_none() {
        Some(names)
    } else {
        None
    }
}

/// Ends a run of named files: puts its text, or the line of its stop.
fn end_run<K: Sink>(
    alloc: Global,
    out: &mut K,
    names: &Names<'_>,
    ran: Result<(Recorded, Runs), Stop>,
) -> Ended
    requires final_runs { IfOk ran (λ r. FinalRuns r.0 r.1) }
    ensures run { IfOk ran (λ r.
        RunEnds (putting K.written K.faults out.old out.new) r.0 result) }
    ensures stop { IfErr ran (λ stop. (result.run ≡ None)
        × StopEnds (putting K.written K.faults out.old out.new) (seen names.now) stop result) }
{
    match ran {
        Ok((recorded, runs)) => end_with_run(alloc, out, recorded, &runs),
        Err(stop) => end_by(alloc, out, names, stop),
    }
}

/// Does what the arguments say, on one thread. `turns ORDER MAP SCRIPT..` reads the files in this order, boots the map with a processor
/// for each of the 1 to 64 scripts, runs each script on the port of its processor, by turns in the order of ORDER and then round all
/// processors until every script is done, and puts the text of the run.
///
/// `--slots N` asks for so many slots of the bounce-buffer pool, 0 to 131,072; without it for 32,768, and with 0 there is no pool.
/// `--areas N` gives its areas, a power of two from 1 to 64; without it there are as many as scripts, raised to a power of two. Boot
/// raises the count of slots, and places the pool. `--table FILE` names the table of unaccepted units that an earlier kernel hands on. It
/// is read right after the map, and boot takes its bits for those of the map. `read_words` tells where options may stand.
///
/// A script with one of the commands `share`, `private` and `giveback` is refused.
///
/// It takes no lock and always returns. Other arguments, those of a run on threads among them, are refused with status 2. `Did` says
/// what came of it.
pub fn plain<F: Files, K: Sink, P: Port + Send>(
    alloc: Global,
    words: &[String],
    files: &mut F,
    out: &mut K,
    ports: &mut Vec<P>,
) -> Ended
    requires ports { MAX_CPUS ≤ length ports.old.items }
    requires unmade { All (λ port. P.made port ≡ []) ports.old.items }
    ensures { Did
        (outside (reading F.holds F.asked F.faults files.old files.new)
        (putting K.written K.faults out.old out.new)
        (asking P.made P.faults P.never_fails ports.old.items ports.new.items))
        (by_turns (named_by (bytes_of_words words.now))) result }
{
    match names_by_turns(words) {
        Some(names) => {
            let ran = run_by_turns(alloc, &names, files, ports);
            end_run(alloc, out, &names, ran)
        }
        None => end_with_line(alloc, out, 2, "refused: words\n"),
    }
}

/// Does what the arguments say. `run MAP SCRIPT..` does what `turns` does, but with a thread for each script, which waits for a lock
/// where it needs the memory or an area of the pool; it reads no order, and it returns only if that waiting ends. All else is done by `plain`.
///
/// `Did` says what came of it.
pub fn top<R: Threads + Wait + Sync, F: Files, K: Sink, P: Port + Send>(
    rt: &R,
    alloc: Global,
    words: &[String],
    files: &mut F,
    out: &mut K,
    ports: &mut Vec<P>,
) -> Ended
    requires ports { MAX_CPUS ≤ length ports.old.items }
    requires unmade { All (λ port. P.made port ≡ []) ports.old.items }
    ensures { Did
        (outside (reading F.holds F.asked F.faults files.old files.new)
        (putting K.written K.faults out.old out.new)
        (asking P.made P.faults P.never_fails ports.old.items ports.new.items))
        (named_by (bytes_of_words words.now)) result }
{
    match names_on_threads(words) {
        Some(names) => {
            let ran = run_on_threads(rt, alloc, &names, files, ports);
            end_run(alloc, out, &names, ran)
        }
        None => plain(alloc, words, files, out, ports),
    }
}
