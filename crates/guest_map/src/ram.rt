//! The RAM of a map.
ghost use Rattle.std.specs.Prelude.{◌≡◌, ◌∷◌, [], ◌+◌, ◌<◌, ◌≤◌, ◌^◌, IfOk, OnOk, IsTrue, ◌↔◌, map, filter, IsPermutation};
ghost use Rattle.std.specs.List.Sorted.{IsNonDecreasingBy};
ghost use Rattle.event_core.specs.Map.{MapRules, first_state};
ghost use Rattle.event_core.specs.Runs.{AreMaximalRuns, state_in, run_end, grown};
ghost use Rattle.guest_base.specs.declared.limits.TheConstants.{PAGE_END};
ghost use Rattle.guest_map.specs.Ram.{run_of, ram_of, AreOrdered, AreBelow, IsPushed};

use crate::map::{GuestMap, is_ram};
use event_core::{Descriptor, Runs};
use guest_base::limits::PAGE_BYTES;
use guest_base::{PageRun, PageState, Pages};
use std::alloc::{AllocError, Global};

/// The pages of a descriptor of RAM, and their first state.
fn run_of(d: Descriptor) -> PageRun
    ensures { result ≡ run_of d }
{
    let pages = Pages {
        first: d.start / PAGE_BYTES,
        count: d.pages,
    };
    let state = if d.kind == 15 {
        PageState::Pending
    } else {
        PageState::Accepted
    };
    PageRun { pages, state }
}

/// The descriptors of RAM, as runs.
fn runs_of(alloc: Global, descriptors: &[Descriptor]) -> Result<Vec<PageRun>, AllocError>
    ensures { IfOk result (λ runs. runs.items ≡ ram_of descriptors.now) }
{
    descriptors
        .iter()
        .copied()
        .filter(|d| is_ram(*d))
        .map(run_of)
        .collect(alloc)
}

fn sort(runs: &mut Vec<PageRun>)
    ensures same { IsPermutation runs.old.items runs.new.items }
    ensures rise { IsNonDecreasingBy (λ (run : _). run.pages.first) runs.new.items }
{
    runs.sort_unstable_by_key(|run| run.pages.first);
}

/// Whether a run goes on right behind another, in the same state.
fn goes_on(last: PageRun, next: PageRun) -> bool
    requires { run_end last ≤ PAGE_END }
    ensures { IsTrue result ↔ ((run_end last ≡ next.pages.first) × (last.state ≡ next.state)) }
{
    last.pages.first + last.pages.count == next.pages.first && last.state == next.state
}

/// Adds a run behind others: it is joined with the last where it goes on with it.
pub fn push_run(runs: &mut Vec<PageRun>, next: PageRun) -> Result<(), AllocError>
    requires some { 0 < next.pages.count }
    requires end { run_end next ≤ PAGE_END }
    requires below { AreBelow next.pages.first runs.old.items }
    requires maximal { AreMaximalRuns (state_in runs.old.items) runs.old.items }
    ensures { OnOk result (IsPushed runs.old.items next runs.new.items) }
{
    let Some(last) = runs.pop() else {
        runs.push(next)?;
        return Ok(());
    };
    if !goes_on(last, next) {
        runs.push(last)?;
        runs.push(next)?;
        return Ok(());
    }
    runs.push(grown(last, next))?;
    Ok(())
}

/// A run with the pages of the next behind it.
fn grown(last: PageRun, next: PageRun) -> PageRun
    requires { run_end last + next.pages.count < 2 ^ 64 }
    ensures { result ≡ grown last next }
{
    let pages = Pages {
        first: last.pages.first,
        count: last.pages.count + next.pages.count,
    };
    PageRun {
        pages,
        state: last.state,
    }
}

/// Joins runs wherever one goes on with another.
fn joined(alloc: Global, sorted: &[PageRun]) -> Result<Runs, AllocError>
    requires { AreOrdered sorted.now }
    ensures { IfOk result (λ runs. AreMaximalRuns (state_in sorted.now) runs) }
{
    let mut runs = Vec::new(alloc);
    for next in sorted {
        push_run(&mut runs, *next)?;
    }
    Ok(Runs::from_vec(runs))
}

impl GuestMap {
    /// The maximal runs of RAM pages by the state that the map alone gives them, rising: Pending where a page is
    /// unaccepted, and Accepted elsewhere (UEFI memory types).
    pub fn ram(&self, alloc: Global) -> Result<Runs, AllocError>
        requires { MapRules self.now.descriptors self.now.hosts }
        ensures { IfOk result (λ runs. AreMaximalRuns (first_state self.now.descriptors) runs) }
    {
        let mut runs = runs_of(alloc, self.descriptors.as_slice())?;
        sort(&mut runs);
        joined(alloc, &runs)
    }
}
