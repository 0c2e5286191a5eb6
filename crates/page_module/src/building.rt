//! How the runs of a page table are written anew.
ghost use Rattle.std.specs.Prelude.{◌≡◌, ◌+◌, ◌*◌, ◌^◌, ◌<◌, ◌≤◌, [], ◌∷◌, ◌++◌, All, IsTrue, length, fold, filter, not, if◌then◌else◌, vec_len, vec_capacity};
ghost use Rattle.std.specs.List.{flat_map};
ghost use Rattle.guest_base.specs.declared.limits.TheConstants.{PAGE_END};
ghost use Rattle.page_module.specs.Tables.{same_state};
ghost use Rattle.page_module.specs.Building.{continues, both, joined, part, cut, common, begins_before, parts, placed, RunEnds};
ghost use Rattle.event_core.specs.Runs.{run_end, grown};
ghost use Rattle.page_module.specs.Spans.{LieInMemory};
ghost use Rattle.page_module.specs.Marking.{EndsInMemory};

use crate::span::TakenRun;
use guest_base::{PageRun, PageState, Pages};

/// Adds runs at the end.
pub(crate) fn join_all(runs: &[PageRun], next: &mut Vec<PageRun>)
    requires ends { All RunEnds runs.now }
    requires room { vec_len next.old + length runs.now ≤ vec_capacity next.old }
    ensures items { next.new.items ≡ fold joined next.old.items runs.now }
    ensures len { vec_len next.new ≤ vec_len next.old + length runs.now }
    ensures capacity { vec_capacity next.old ≤ vec_capacity next.new }
{
    for run in runs {
        join(next, *run);
    }
}

/// Adds what is left of runs without some pages at the end.
pub(crate) fn cut_out(runs: &Vec<PageRun>, pages: Pages, next: &mut Vec<PageRun>)
    requires ends { All RunEnds runs.now.items }
    requires pages { LieInMemory pages }
    requires room { vec_len next.old + length (flat_map (cut pages) runs.now.items)
        ≤ vec_capacity next.old }
    ensures items { next.new.items
        ≡ fold joined next.old.items (flat_map (cut pages) runs.now.items) }
    ensures len { vec_len next.new ≤ vec_len next.old
        + length (flat_map (cut pages) runs.now.items) }
    ensures capacity { vec_capacity next.old ≤ vec_capacity next.new }
{
    for run in runs {
        cut_run(*run, pages, next);
    }
}

/// Adds what is left of a run without some pages at the end.
fn cut_run(run: PageRun, pages: Pages, next: &mut Vec<PageRun>)
    requires ends { RunEnds run }
    requires pages { LieInMemory pages }
    requires room { vec_len next.old + length (cut pages run) ≤ vec_capacity next.old }
    ensures items { next.new.items ≡ fold joined next.old.items (cut pages run) }
    ensures len { vec_len next.new ≤ vec_len next.old + length (cut pages run) }
    ensures capacity { vec_capacity next.old ≤ vec_capacity next.new }
{
    let first = run.pages.first;
    let end = first + run.pages.count;
    join_part(run, first, end.min(pages.first), next);
    join_part(run, first.max(pages.first + pages.count), end, next);
}

/// Adds the part of a run from a page up to another at the end, where there is one.
fn join_part(run: PageRun, first: u64, end: u64, next: &mut Vec<PageRun>)
    requires end { end ≤ PAGE_END }
    requires room { vec_len next.old + length (part run first end) ≤ vec_capacity next.old }
    ensures items { next.new.items ≡ fold joined next.old.items (part run first end) }
    ensures len { vec_len next.new ≤ vec_len next.old + length (part run first end) }
    ensures capacity { vec_capacity next.old ≤ vec_capacity next.new }
{
    if first < end {
        let pages = Pages {
            first,
            count: end - first,
        };
        join(
            next,
            PageRun {
                pages,
                state: run.state,
            },
        );
    }
}

/// Adds a table's runs at the end, with those of a span among them, which begin at a page.
pub(crate) fn join_placed(
    runs: &Vec<PageRun>,
    first: u64,
    taken: &Vec<TakenRun>,
    next: &mut Vec<PageRun>,
)
    requires ends { All RunEnds runs.now.items }
    requires taken_ends { All EndsInMemory taken.now.items }
    requires room { vec_len next.old + length (placed first runs.now.items taken.now.items)
        ≤ vec_capacity next.old }
    ensures items { next.new.items
        ≡ fold joined next.old.items (placed first runs.now.items taken.now.items) }
    ensures len { vec_len next.new
        ≤ vec_len next.old + length (placed first runs.now.items taken.now.items) }
    ensures capacity { vec_capacity next.old ≤ vec_capacity next.new }
{
    join_before(runs, first, next);
    join_taken(taken, next);
    join_behind(runs, first, next);
}

/// Adds the runs that begin before a page at the end.
fn join_before(runs: &Vec<PageRun>, first: u64, next: &mut Vec<PageRun>)
    requires ends { All RunEnds runs.now.items }
    requires room { vec_len next.old + length (filter (begins_before first) runs.now.items)
        ≤ vec_capacity next.old }
    ensures items { next.new.items
        ≡ fold joined next.old.items (filter (begins_before first) runs.now.items) }
    ensures len { vec_len next.new ≤ vec_len next.old
        + length (filter (begins_before first) runs.now.items) }
    ensures capacity { vec_capacity next.old ≤ vec_capacity next.new }
{
    for run in runs {
        if run.pages.first < first {
            join(next, *run);
        }
    }
}

/// Adds the runs that begin at a page or behind it at the end.
fn join_behind(runs: &Vec<PageRun>, first: u64, next: &mut Vec<PageRun>)
    requires ends { All RunEnds runs.now.items }
    requires room { vec_len next.old
        + length (filter (λ run. not (begins_before first run)) runs.now.items)
        ≤ vec_capacity next.old }
    ensures items { next.new.items ≡ fold joined next.old.items
        (filter (λ run. not (begins_before first run)) runs.now.items) }
    ensures len { vec_len next.new ≤ vec_len next.old
        + length (filter (λ run. not (begins_before first run)) runs.now.items) }
    ensures capacity { vec_capacity next.old ≤ vec_capacity next.new }
{
    for run in runs {
        if run.pages.first >= first {
            join(next, *run);
        }
    }
}

/// Adds a span's runs at the end.
fn join_taken(taken: &Vec<TakenRun>, next: &mut Vec<PageRun>)
    requires ends { All EndsInMemory taken.now.items }
    requires room { vec_len next.old + length (flat_map parts taken.now.items)
        ≤ vec_capacity next.old }
    ensures items { next.new.items ≡ fold joined next.old.items (flat_map parts taken.now.items) }
    ensures len { vec_len next.new ≤ vec_len next.old + length (flat_map parts taken.now.items) }
    ensures capacity { vec_capacity next.old ≤ vec_capacity next.new }
{
    for run in taken {
        join_parts(*run, next);
    }
}

/// Adds the runs of a taken run at the end.
fn join_parts(taken: TakenRun, next: &mut Vec<PageRun>)
    requires ends { EndsInMemory taken }
    requires room { vec_len next.old + length (parts taken) ≤ vec_capacity next.old }
    ensures items { next.new.items ≡ fold joined next.old.items (parts taken) }
    ensures len { vec_len next.new ≤ vec_len next.old + length (parts taken) }
    ensures capacity { vec_capacity next.old ≤ vec_capacity next.new }
{
    let TakenRun { run, accepted } = taken;
    let pages = run.pages;
    let rest = pages.first + accepted;
    let state = PageState::Accepted;
    join_part(PageRun { pages, state }, pages.first, rest, next);
    join_part(run, rest, pages.first + pages.count, next);
}

/// What a span gets of runs, in its storage.
pub(crate) fn copies_of(runs: &Vec<PageRun>, pages: Pages, storage: Vec<TakenRun>) -> Vec<TakenRun>
    requires ends { All RunEnds runs.now.items }
    requires pages { LieInMemory pages }
    requires empty { storage.items ≡ [] }
    requires room { length (flat_map (common pages) runs.now.items) ≤ vec_capacity storage }
    ensures items { result.items ≡ flat_map (common pages) runs.now.items }
    ensures len { vec_len result ≡ length (flat_map (common pages) runs.now.items) }
    ensures capacity { vec_capacity storage ≤ vec_capacity result }
{
    let mut taken = storage;
    copy_runs(runs, pages, &mut taken);
    taken
}

/// What a span gets of runs.
fn copy_runs(runs: &Vec<PageRun>, pages: Pages, taken: &mut Vec<TakenRun>)
    requires ends { All RunEnds runs.now.items }
    requires pages { LieInMemory pages }
    requires room { vec_len taken.old + length (flat_map (common pages) runs.now.items)
        ≤ vec_capacity taken.old }
    ensures items { taken.new.items ≡ taken.old.items ++ flat_map (common pages) runs.now.items }
    ensures len { vec_len taken.new ≤ vec_len taken.old
        + length (flat_map (common pages) runs.now.items) }
    ensures capacity { vec_capacity taken.old ≤ vec_capacity taken.new }
{
    for run in runs {
        copy_run(*run, pages, taken);
    }
}

/// What a span gets of a run, where it gets something.
fn copy_run(run: PageRun, pages: Pages, taken: &mut Vec<TakenRun>)
    requires ends { RunEnds run }
    requires pages { LieInMemory pages }
    requires room { vec_len taken.old + length (common pages run) ≤ vec_capacity taken.old }
    ensures items { taken.new.items ≡ taken.old.items ++ common pages run }
    ensures len { vec_len taken.new ≤ vec_len taken.old + length (common pages run) }
    ensures capacity { vec_capacity taken.old ≤ vec_capacity taken.new }
{
    let first = run.pages.first.max(pages.first);
    let end = (run.pages.first + run.pages.count).min(pages.first + pages.count);
    if first < end {
        let pages = Pages {
            first,
            count: end - first,
        };
        let run = PageRun {
            pages,
            state: run.state,
        };
        taken.push_reserved(TakenRun { run, accepted: 0 });
    }
}

/// Adds a run at the end, where it becomes part of the last one where it goes on in its state.
fn join(runs: &mut Vec<PageRun>, run: PageRun)
    requires ends { RunEnds run }
    requires room { vec_len runs.old < vec_capacity runs.old }
    ensures items { runs.new.items ≡ joined runs.old.items run }
    ensures len { vec_len runs.new ≤ vec_len runs.old + 1 }
    ensures capacity { vec_capacity runs.old ≤ vec_capacity runs.new }
{
    match runs.pop() {
        Some(last) => push_both(runs, last, run),
        None => runs.push_reserved(run),
    }
}

/// Adds a run and the next one, which becomes part of it where it goes on in its state.
fn push_both(runs: &mut Vec<PageRun>, last: PageRun, run: PageRun)
    requires ends { RunEnds run }
    requires room { vec_len runs.old + 1 < vec_capacity runs.old }
    ensures items { runs.new.items ≡ runs.old.items ++ both last run }
    ensures len { vec_len runs.new ≤ vec_len runs.old + 2 }
    ensures capacity { vec_capacity runs.old ≤ vec_capacity runs.new }
{
    if goes_on(last, run) {
        runs.push_reserved(with_more(last, run));
    } else {
        runs.push_reserved(last);
        runs.push_reserved(run);
    }
}

/// Whether a run goes on where another ends, in the same state.
fn goes_on(last: PageRun, run: PageRun) -> bool
    ensures { result ≡ continues last run }
{
    run.pages.first >= last.pages.first
        && run.pages.first - last.pages.first == last.pages.count
        && have_one_state(last.state, run.state)
}

fn have_one_state(a: PageState, b: PageState) -> bool
    ensures { result ≡ same_state a b }
{
    a == b
}

/// A run with one that goes on where it ends.
fn with_more(last: PageRun, run: PageRun) -> PageRun
    requires ends { RunEnds run }
    requires on { IsTrue (continues last run) }
    ensures { result ≡ grown last run }
{
    let pages = Pages {
        first: last.pages.first,
        count: last.pages.count + run.pages.count,
    };
    PageRun {
        pages,
        state: last.state,
    }
}
