//! The printed text of a run.
ghost use Rattle.std.specs.Prelude.{◌≡◌, ◌++◌, ◌+◌, ◌≤◌, codes, string_bytes, map, ◌==◌, if◌then◌else◌, None, IfOk, OnOk, OnErr, IsErrOf};
ghost use Rattle.std.specs.Option.{option_copied};
ghost use Rattle.std.specs.Fmt.{decimal};
ghost use Rattle.guest_base.specs.declared.limits.TheConstants.{PAGE_END};
ghost use Rattle.guest_base.specs.Counts.{Rose};
ghost use Rattle.guest_io.specs.Writing.{appended, AppendsPrefix};
ghost use Rattle.event_core.specs.Runs.{run_end};
ghost use Rattle.event_core.specs.Texts.{line, reply_text, processor_text, processors_text, state_text, page_run_text, pages_text, run_text};
ghost use Rattle.event_core.specs.Printed.{EndInMemory, FinalRuns, replies_of_cpu};
ghost use Rattle.event_core.specs.Turns.{numbers_from};
ghost use Rattle.guest_text.specs.Printings.{PrintedAfter, CutAfter};
ghost use Rattle.guest_text.specs.Putting.{putting};

use event_core::{Entry, Recorded, Reply, Runs};
use guest_base::limits::PAGE_BYTES;
use guest_base::{Bytes, PageRun, PageState};
use guest_io::{PutFault, Sink};
use guest_script::print_reply;
use std::alloc::{AllocError, Global};
use std::fmt::Write;

/// The reply in an entry, where the entry is the processor's.
fn reply_of(entry: &Entry, cpu: u32) -> Option<&Reply>
    ensures { option_copied result ≡ (if entry.now.cpu.0 == cpu then entry.now.reply else None) }
{
    if entry.cpu.0 == cpu {
        entry.reply.as_ref()
    } else {
        None
    }
}

/// Adds the line of a reply.
fn push_reply(
    alloc: Global,
    text: &mut Vec<u8>,
    number: u64,
    reply: &Reply,
) -> Result<(), AllocError>
    ensures { OnOk result (text.new.items ≡ text.old.items
        ++ line (decimal number ++ codes " " ++ reply_text reply.now)) }
{
    let head = format!(in alloc; "{number} ")?;
    let body = print_reply(alloc, reply)?;
    text.extend_from_slice(head.as_bytes())?;
    text.extend_from_slice(body.as_slice())?;
    text.push(b'\n')?;
    Ok(())
}

/// The section of a processor: its number, and its replies, numbered from 1 on.
fn print_processor(alloc: Global, cpu: u32, entries: &[Entry]) -> Result<Bytes, AllocError>
    ensures { IfOk result (λ text. text ≡ processor_text cpu (replies_of_cpu entries.now cpu)) }
{
    let mut text = format!(in alloc; "cpu {cpu}\n")?.into_bytes();
    let mut printed = 0u64;
    for entry in entries {
        if let Some(reply) = reply_of(entry, cpu) {
            printed += 1;
            push_reply(alloc, &mut text, printed, reply)?;
        }
    }
    Ok(Bytes::from_vec(text))
}

fn state_word(state: PageState) -> &'static str
    ensures { result.now ≡ state_text state }
{
    match state {
        PageState::Pending => "pending",
        PageState::Accepted => "accepted",
        PageState::Shared => "shared",
    }
}

/// Adds the line of a run of pages: its first address, the first address after it, and its state.
fn push_run(text: &mut String, run: PageRun) -> Result<(), AllocError>
    requires { run_end run ≤ PAGE_END }
    ensures { OnOk result (string_bytes text.new ≡ string_bytes text.old ++ page_run_text run) }
{
    let start = PAGE_BYTES * run.pages.first;
    let end = PAGE_BYTES * (run.pages.first + run.pages.count);
    let state = state_word(run.state);
    write!(text, "0x{start:x}-0x{end:x} {state}\n")
}

/// The section of the pages.
fn print_pages(alloc: Global, runs: &[PageRun]) -> Result<String, AllocError>
    requires { EndInMemory runs.now }
    ensures { IfOk result (λ text. string_bytes text ≡ pages_text runs.now) }
{
    let mut text = String::from_str(alloc, "pages\n")?;
    for run in runs {
        push_run(&mut text, *run)?;
    }
    Ok(text)
}

/// Puts the section of each processor.
fn put_processors<K: Sink>(
    alloc: Global,
    out: &mut K,
    cpus: u32,
    entries: &[Entry],
) -> Result<(), PutFault>
    ensures ok { OnOk result (K.written out.new ≡ appended (K.written out.old)
        (processors_text 0 (map (replies_of_cpu entries.now) (numbers_from 0 cpus)))) }
    ensures failed { IsErrOf result PutFault.Failed → Rose (K.faults out.old) (K.faults out.new) }
    ensures cut { OnErr result (AppendsPrefix (K.written out.old)
        (processors_text 0 (map (replies_of_cpu entries.now) (numbers_from 0 cpus)))
        (K.written out.new)) }
    ensures faults_kept { K.faults out.old ≤ K.faults out.new }
{
    for cpu in 0..cpus {
        let section = print_processor(alloc, cpu, entries)?;
        out.put(alloc, section.as_slice())?;
    }
    Ok(())
}

/// Puts the section of each processor, that of the pages, and `end`.
fn put_text<K: Sink>(
    alloc: Global,
    out: &mut K,
    cpus: u32,
    entries: &[Entry],
    runs: &[PageRun],
) -> Result<(), PutFault>
    requires { EndInMemory runs.now }
    ensures ok { OnOk result (K.written out.new ≡ appended (K.written out.old)
        (run_text (map (replies_of_cpu entries.now) (numbers_from 0 cpus)) runs.now None)) }
    ensures failed { IsErrOf result PutFault.Failed → Rose (K.faults out.old) (K.faults out.new) }
    ensures cut { OnErr result (AppendsPrefix (K.written out.old)
        (run_text (map (replies_of_cpu entries.now) (numbers_from 0 cpus)) runs.now None)
        (K.written out.new)) }
    ensures faults_kept { K.faults out.old ≤ K.faults out.new }
{
    put_processors(alloc, out, cpus, entries)?;
    let pages = print_pages(alloc, runs)?;
    out.put(alloc, pages.as_bytes())?;
    out.put(alloc, b"end\n")
}

/// Puts the text of a run with its final runs of pages: the section of each processor, that of the pages, and `end`.
///
/// `Failed` comes only where the sink's count of faults rose. After an error a prefix of the text is put.
pub fn put_run<K: Sink>(
    alloc: Global,
    out: &mut K,
    recorded: &Recorded,
    runs: &Runs,
) -> Result<(), PutFault>
    requires final_runs { FinalRuns recorded.now runs.now }
    ensures printed { OnOk result
        (PrintedAfter recorded.now (putting K.written K.faults out.old out.new)) }
    ensures failed { IsErrOf result PutFault.Failed → Rose (K.faults out.old) (K.faults out.new) }
    ensures cut { OnErr result
        (CutAfter recorded.now (putting K.written K.faults out.old out.new)) }
    ensures faults_kept { K.faults out.old ≤ K.faults out.new }
{
    put_text(
        alloc,
        out,
        recorded.boot.cpus,
        recorded.entries.as_slice(),
        runs.as_slice(),
    )
}
