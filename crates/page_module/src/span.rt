//! Spans of pages.
ghost use Rattle.std.specs.Prelude.{◌≡◌, ◌≢◌, ℕ, ◌⊎◌, ◌+◌, ◌≤◌, ◌<◌, ◌^◌, map, All, true, length, vec_capacity, Option, Some, None, IfSome, IfNone, if◌then◌else◌};
ghost use Rattle.guest_base.specs.Ranges.{in_range};
ghost use Rattle.guest_base.specs.declared.memory.PageState.TheVariants.{Accepted};

use crate::ticket::Ticket;
use guest_base::{Page, PageRun, PageState, Pages};
use std::marker::Model;

/// A run of pages as it was taken, of which the first `accepted` were accepted since.
#[derive(Clone, Copy, Debug, PartialEq, Eq)]
pub(crate) struct TakenRun {
    pub(crate) run: PageRun,
    pub(crate) accepted: u64,
}

/// Pages that are taken out of a page table, with their states.
///
/// Contracts see the ticket of their taking, and runs that tell each page's state.
#[derive(Debug, Drop)]
pub struct Span {
    ticket: Ticket,
    runs: Vec<TakenRun>,
}

impl Model for Span {
    ghost use Rattle.std.specs.Prelude.{◌≡◌, ◌+◌, ◌<◌, ◌≤◌, ◌^◌, length, vec_capacity};
    ghost use Rattle.event_core.specs.Cut.{pages_end};
    ghost use Rattle.page_module.specs.Spans.{Taken, runs_now, RunsFrom, LieInMemory};

    ghost Value = { Taken };

    ghost view = { λ s. record { ticket = s.ticket; runs = runs_now s.runs.items } };

    ghost invariant = { λ s. RunsFrom s.ticket.pages.first (pages_end s.ticket.pages) s.runs.items
        × (length s.runs.items ≤ s.ticket.runs)
        × LieInMemory s.ticket.pages
        × (s.ticket.room ≤ vec_capacity s.runs) };
}

impl Span {
    ghost use Rattle.event_core.specs.Runs.{state_in};
    ghost use Rattle.guest_base.specs.declared.limits.TheConstants.{PAGE_END};
    ghost use Rattle.event_core.specs.Cut.{pages_end};
    ghost use Rattle.page_module.specs.Spans.{BeginsPending, Becomes, runs_now, RunsFrom, LieInMemory};
    ghost use Rattle.page_module.specs.Marking.{IsFirstPending, NonePending};

    /// The span of a ticket and of the runs that were taken by it.
    pub(crate) fn new(ticket: Ticket, runs: Vec<TakenRun>) -> Span
        requires runs { RunsFrom ticket.pages.first (pages_end ticket.pages) runs.items }
        requires few { length runs.items ≤ ticket.runs }
        requires ends { LieInMemory ticket.pages }
        requires room { ticket.room ≤ vec_capacity runs }
        ensures { result ≡ record { ticket = ticket; runs = runs_now runs.items } }
    {
        Span { ticket, runs }
    }

    /// The ticket, and the runs that were taken by it.
    pub(crate) fn into_parts(self) -> (Ticket, Vec<TakenRun>)
        ensures ticket { result.0 ≡ self.ticket }
        ensures states { runs_now result.1.items ≡ self.runs }
        ensures runs { RunsFrom self.ticket.pages.first (pages_end self.ticket.pages)
            result.1.items }
        ensures few { length result.1.items ≤ self.ticket.runs }
        ensures ends { LieInMemory self.ticket.pages }
        ensures room { self.ticket.room ≤ vec_capacity result.1 }
    {
        let Span { ticket, runs } = self;
        (ticket, runs)
    }

    /// The span's pages. No other page has a state in it, and none lies at or above 2^28.
    pub fn pages(&self) -> Pages
        ensures value { result ≡ self.now.ticket.pages }
        ensures below { LieInMemory result }
        ensures few { result.count ≤ PAGE_END }
        ensures within { (page : ℕ) → state_in self.now.runs page ≢ None
            → in_range result.first result.count page ≡ true }
    {
        self.ticket.pages
    }

    /// The ticket of its taking.
    pub fn ticket(&self) -> Ticket
        ensures { result ≡ self.now.ticket }
    {
        self.ticket
    }

    /// The state of a page of the span.
    pub fn state(&self, page: Page) -> PageState
        requires { in_range self.now.ticket.pages.first self.now.ticket.pages.count page.0
            ≡ true }
        ensures { state_in self.now.runs page.0 ≡ Some result }
    {
        for taken in &self.runs {
            if taken.run.pages.holds(page) {
                return taken.state_of(page);
            }
        }
        unreachable!()
    }

    /// The first maximal run of Pending pages among the pages at or after `from`. None exactly where none of
    /// them is Pending.
    pub fn next_pending(&self, from: Page) -> Option<Pages>
        ensures some { IfSome result (IsFirstPending self.now from.0) }
        ensures none { IfNone result (NonePending self.now from.0) }
    {
        let first = first_page_of(&self.runs, true, from.0)?;
        let last = self.ticket.pages.first + self.ticket.pages.count;
        let end = first_page_of(&self.runs, false, first).unwrap_or(last);
        Some(Pages {
            first,
            count: end - first,
        })
    }

    /// Gives pages a state: the whole span any, or the first pages of a maximal run of Pending pages the
    /// state Accepted.
    pub fn mark(&mut self, pages: Pages, state: PageState)
        requires { (pages ≡ self.old.ticket.pages)
            ⊎ ((state ≡ Accepted) × BeginsPending self.old pages.first pages.count) }
        ensures { Becomes state self.old self.new pages.first pages.count }
    {
        if pages == self.ticket.pages {
            set_state(&mut self.runs, state);
        } else {
            accept_pages(&mut self.runs, pages);
        }
    }
}

impl TakenRun {
    ghost use Rattle.page_module.specs.Marking.{first_in, first_in_accepted, first_in_rest, first_from, EndsInMemory};

    /// The state of one of its pages.
    fn state_of(&self, page: Page) -> PageState
        ensures { result ≡ (if in_range self.now.run.pages.first self.now.accepted page.0
            then Accepted else self.now.run.state) }
    {
        let accepted = Pages {
            first: self.run.pages.first,
            count: self.accepted,
        };
        if accepted.holds(page) {
            PageState::Accepted
        } else {
            self.run.state
        }
    }

    /// The first of its pages at or after `from` that is Pending, or that isn't.
    fn first_in(&self, is_pending: bool, from: u64) -> Option<u64>
        requires { EndsInMemory self.now }
        ensures { result ≡ first_in is_pending from self.now }
    {
        match self.first_in_accepted(is_pending, from) {
            Some(page) => Some(page),
            None => self.first_in_rest(is_pending, from),
        }
    }

    fn first_in_accepted(&self, is_pending: bool, from: u64) -> Option<u64>
        requires { EndsInMemory self.now }
        ensures { result ≡ first_in_accepted is_pending from self.now }
    {
        if is_pending {
            None
        } else {
            first_at(self.run.pages.first, self.accepted, from)
        }
    }

    fn first_in_rest(&self, is_pending: bool, from: u64) -> Option<u64>
        requires { EndsInMemory self.now }
        ensures { result ≡ first_in_rest is_pending from self.now }
    {
        if (self.run.state == PageState::Pending) == is_pending {
            first_at(
                self.run.pages.first + self.accepted,
                self.run.pages.count - self.accepted,
                from,
            )
        } else {
            None
        }
    }
}

ghost use Rattle.page_module.specs.Marking.{first_from};

/// The first of `count` numbers from `first` on that is at or after `from`.
fn first_at(first: u64, count: u64, from: u64) -> Option<u64>
    requires { first + count < 2 ^ 64 }
    ensures { result ≡ first_from first count from }
{
    let page = first.max(from);
    if page < first + count {
        Some(page)
    } else {
        None
    }
}

ghost use Rattle.page_module.specs.Marking.{all_in_state, accepted_in, first_page, EndsInMemory};

/// The first page at or after `from` that is Pending, or that isn't.
fn first_page_of(runs: &Vec<TakenRun>, pending: bool, from: u64) -> Option<u64>
    requires { All EndsInMemory runs.now.items }
    ensures { result ≡ first_page pending from runs.now.items }
{
    for taken in runs {
        if let Some(page) = taken.first_in(pending, from) {
            return Some(page);
        }
    }
    None
}

/// Gives every page a state.
fn set_state(runs: &mut Vec<TakenRun>, state: PageState)
    ensures items { runs.new.items ≡ map (all_in_state state) runs.old.items }
    ensures capacity { vec_capacity runs.new ≡ vec_capacity runs.old }
{
    for taken in runs.iter_mut() {
        *taken = all_of(*taken, state);
    }
}

fn all_of(taken: TakenRun, state: PageState) -> TakenRun
    ensures { result ≡ all_in_state state taken }
{
    let pages = taken.run.pages;
    TakenRun {
        run: PageRun { pages, state },
        accepted: 0,
    }
}

/// Accepts pages that begin the rest of a run, in this and in the runs that follow it.
fn accept_pages(runs: &mut Vec<TakenRun>, pages: Pages)
    requires runs { All EndsInMemory runs.old.items }
    requires pages { 0 < pages.count → pages.first + pages.count < 2 ^ 64 }
    ensures items { runs.new.items ≡ map (accepted_in pages) runs.old.items }
    ensures capacity { vec_capacity runs.new ≡ vec_capacity runs.old }
{
    for taken in runs.iter_mut() {
        *taken = with_accepted(*taken, pages);
    }
}

/// The run in which these pages are accepted, where they hold the first page of its rest.
fn with_accepted(taken: TakenRun, pages: Pages) -> TakenRun
    requires run { EndsInMemory taken }
    requires pages { 0 < pages.count → pages.first + pages.count < 2 ^ 64 }
    ensures { result ≡ accepted_in pages taken }
{
    let TakenRun { run, accepted } = taken;
    let first = run.pages.first;
    let accepted = if pages.holds(Page(first + accepted)) {
        (first + run.pages.count).min(pages.first + pages.count) - first
    } else {
        accepted
    };
    TakenRun { run, accepted }
}
