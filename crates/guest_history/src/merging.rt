//! The merge of the processors' lists, and the order of their turns.
ghost use Rattle.std.specs.Prelude.{ℕ, List, [], Some, ◌≡◌, ◌<◌, All, IfOk, OnOk, length, map, flat_map, slice_get, unwrap_or};
ghost use Rattle.event_core.specs.declared.entry.Entry.{Entry as EntryValue};
ghost use Rattle.event_core.specs.Legal.{Legal, Whole, with_moved};
ghost use Rattle.event_core.specs.Splits.{Lists, SplitsInto};
ghost use Rattle.event_core.specs.Locally.{Rising, EachFollows};
ghost use Rattle.event_core.specs.Turns.{entries_by, TakenIn, Turned};
ghost use Rattle.guest_history.specs.Agreeing.{AreMadeBy, Agree, AllReplied};

use event_core::{Boot, Entry, EntryLists, Order, Recorded, Scripts};
use guest_base::{CpuNo, Items};
use std::alloc::{AllocError, Global};

/// The run whose entries are those of all lists, rising by stamp and then by processor. The lists stand in the order of their
/// processors' numbers, from 0 on. Being out of memory is the only error.
pub fn gather(
    alloc: Global,
    boot: Boot,
    scripts: Scripts,
    lists: EntryLists,
) -> Result<Recorded, AllocError>
    requires named { (cpu : ℕ) (list : List EntryValue) → slice_get lists cpu ≡ Some list →
        All (λ e. e.cpu.0 ≡ cpu) list }
    requires rise { All Rising lists }
    ensures boot { IfOk result (λ r. r.boot ≡ boot) }
    ensures scripts { IfOk result (λ r. r.scripts ≡ scripts) }
    ensures rises { IfOk result (λ r. Rising r.entries) }
    ensures entries { IfOk result (λ r. (cpu : ℕ) →
        entries_by cpu r.entries ≡ unwrap_or (slice_get lists cpu) []) }
    // where the lists of the locks agree with these, and each entry follows where it was made
    ensures legal { IfOk result (λ r. (kept : Lists) → AreMadeBy lists kept → Agree kept →
        EachFollows boot scripts kept → Legal boot scripts r.entries
        × SplitsInto (with_moved boot scripts r.entries) kept) }
    // and every command has its reply
    ensures whole { IfOk result (λ r. (kept : Lists) → AreMadeBy lists kept → Agree kept →
        EachFollows boot scripts kept → AllReplied scripts kept → Whole boot scripts r.entries) }
{
    let mut entries = joined(alloc, lists)?;
    entries.sort_by_key(|entry| entry.stamp)?;
    Ok(Recorded {
        boot,
        scripts,
        entries: Items::from_vec(entries),
    })
}

/// The order of turns that makes a run's entries: their processors, one by one. In these turns no processor is idle, and each takes
/// the next entry; where the run is whole nobody has a next event behind them. Each has a script. Being out of memory is the only
/// error.
pub fn order_of(alloc: Global, run: &Recorded) -> Result<Order, AllocError>
    ensures order { IfOk result (λ order. order ≡ map (λ e. e.cpu) run.now.entries) }
    ensures low { Legal run.now.boot run.now.scripts run.now.entries → IfOk result (λ order.
        All (λ cpu. cpu.0 < length run.now.scripts) order) }
    ensures taken { Legal run.now.boot run.now.scripts run.now.entries → IfOk result (λ order.
        TakenIn run.now.boot run.now.scripts [] (map (λ cpu. cpu.0) order) run.now.entries) }
    ensures turned { Whole run.now.boot run.now.scripts run.now.entries → IfOk result (λ order.
        Turned run.now.boot run.now.scripts (map (λ cpu. cpu.0) order) run.now.entries) }
{
    Ok(Items::from_vec(cpus_of(alloc, run.entries.as_slice())?))
}

fn cpus_of(alloc: Global, entries: &[Entry]) -> Result<Vec<CpuNo>, AllocError>
    ensures { IfOk result (λ cpus. cpus.items ≡ map (λ e. e.cpu) entries.now) }
{
    entries.iter().map(|entry| entry.cpu).collect(alloc)
}

// The entries of all lists, end to end.
fn joined(alloc: Global, lists: EntryLists) -> Result<Vec<Entry>, AllocError>
    ensures { IfOk result (λ all. all.items ≡ flat_map (λ list. list) lists) }
{
    let mut all = Vec::new(alloc);
    for list in lists.into_vec() {
        all.append(&mut list.into_vec())?;
    }
    Ok(all)
}
