//! The page table.
ghost use Rattle.std.specs.Prelude.{◌≡◌, ◌≢◌, ℕ, ◌+◌, ◌*◌, ◌^◌, ◌<◌, ◌≤◌, List, [], ◌∷◌, ◌++◌, Option, Some, None, All, true, length, fold, filter, max, IfOk, OnOk, OnErr, if◌then◌else◌, vec_len, vec_capacity};
ghost use Rattle.std.specs.List.{flat_map};
ghost use Rattle.guest_base.specs.Ranges.{in_range};
ghost use Rattle.event_core.specs.Runs.{state_in, AreMaximalRuns};

use crate::building::{copies_of, cut_out, join_all, join_placed};
use crate::span::{Span, TakenRun};
use crate::ticket::Ticket;
use event_core::Runs;
use guest_base::{Page, PageRun, PageState, Pages};
use std::alloc::{AllocError, Global};
use std::marker::Model;
use std::mem;

/// The states of all pages of RAM that are in, and which pages are out in spans.
///
/// Contracts see the runs of the pages that are in, the tickets of the spans that are out, and the room
/// left, in pieces.
#[derive(Drop)]
pub struct PageTable {
    alloc: Global,
    /// The maximal runs of one state of the pages that are in, rising.
    runs: Vec<PageRun>,
    /// Where the runs are written anew; empty between calls.
    next: Vec<PageRun>,
    /// The tickets of the spans that are out.
    out: Vec<Ticket>,
    /// The storage of the next span; empty.
    spare: Vec<TakenRun>,
    /// The places in `runs` and in `next` that are kept for the spans that are out.
    kept: u64,
    /// The room left, in pieces.
    room: u64,
}

impl Model for PageTable {
    ghost use Rattle.page_module.specs.Tables.{Table};
    ghost use Rattle.page_module.specs.Invariant.{TableHolds};

    ghost Value = { Table };

    ghost view = { λ t. record { runs = t.runs.items; out = t.out.items; room = t.room } };

    ghost invariant = { λ t. TableHolds t.runs t.next t.out t.spare t.kept t.room };
}

impl PageTable {
    ghost use Rattle.page_module.specs.Spans.{LieInMemory};
    ghost use Rattle.page_module.specs.Tables.{Rising, AreLow, run_count, is_out, without, Apart};
    ghost use Rattle.page_module.specs.declared.ticket.Ticket.{Ticket};

    /// The table of these runs, with no room and no page out.
    pub fn new(alloc: Global, runs: &Runs) -> Result<PageTable, AllocError>
        requires { Rising 0 runs.now }
        ensures states { IfOk result (λ t. (page : ℕ)
            → state_in t.runs page ≡ state_in runs.now page) }
        ensures out { IfOk result (λ t. t.out ≡ []) }
    {
        let given = runs.as_slice();
        let mut own = Vec::with_capacity(alloc, given.len())?;
        let next = Vec::with_capacity(alloc, given.len())?;
        join_all(given, &mut own);
        Ok(PageTable {
            alloc,
            runs: own,
            next,
            out: Vec::new(alloc),
            spare: Vec::new(alloc),
            kept: 0,
            room: 0,
        })
    }

    /// Takes room for `pieces` more pieces. Nothing else changes. Whatever the answer, all pages of the table
    /// lie in memory.
    pub fn reserve(&mut self, _alloc: Global, pieces: u64) -> Result<(), AllocError>
        ensures ok { OnOk result (pieces ≤ self.new.room) }
        ensures room_kept { self.old.room ≤ self.new.room }
        ensures runs { self.new.runs ≡ self.old.runs }
        ensures out { self.new.out ≡ self.old.out }
        ensures err { OnErr result (self.new ≡ self.old) }
        ensures low { AreLow self.old.runs }
    {
        if self.room < pieces {
            self.take_room(pieces)
        } else {
            Ok(())
        }
    }

    fn take_room(&mut self, pieces: u64) -> Result<(), AllocError>
        ensures ok { OnOk result (pieces ≤ self.new.room) }
        ensures room_kept { self.old.room ≤ self.new.room }
        ensures runs { self.new.runs ≡ self.old.runs }
        ensures out { self.new.out ≡ self.old.out }
        ensures err { OnErr result (self.new ≡ self.old) }
    {
        let places = self.kept.checked_add(pieces).ok_or(AllocError)? as usize;
        self.runs.reserve(places)?;
        self.next.reserve(self.runs.len() + places)?;
        self.out.reserve(1)?;
        self.spare.reserve(pieces as usize)?;
        self.room = self.room.max(pieces);
        Ok(())
    }

    /// Takes pages out, with their states. Every page has to be RAM that isn't out.
    ///
    /// Of the room, a span needs 2 * r + 2 pieces, r being the number of runs of one state among the pages.
    /// All that is left goes with the span too, so that the table has none, and is the table's again when it is put
    /// back.
    pub fn take(&mut self, pages: Pages) -> Span
        requires here { (page : ℕ) → in_range pages.first pages.count page ≡ true
            → state_in self.old.runs page ≢ None }
        requires room { 2 * run_count (state_in self.old.runs) pages + 2 ≤ self.old.room }
        ensures pages { result.ticket.pages ≡ pages }
        ensures states { (page : ℕ) → state_in result.runs page
            ≡ (if in_range pages.first pages.count page
            then state_in self.old.runs page else None) }
        ensures rest { (page : ℕ) → state_in self.new.runs page
            ≡ (if in_range pages.first pages.count page
            then None else state_in self.old.runs page) }
        ensures out { self.new.out ≡ self.old.out ++ result.ticket ∷ [] }
        ensures alone { All (λ (other : Ticket). Apart pages other.pages) self.old.out }
        ensures low { LieInMemory pages }
        ensures room { self.old.room
            ≤ result.ticket.room + (2 * run_count (state_in self.old.runs) pages + 2) }
        ensures left { self.new.room ≡ 0 }
    {
        let spare = mem::replace(&mut self.spare, Vec::new(self.alloc));
        let runs = copies_of(&self.runs, pages, spare);
        cut_out(&self.runs, pages, &mut self.next);
        renew(&mut self.runs, &mut self.next);
        let count = runs.len() as u64;
        let ticket = Ticket {
            pages,
            runs: count,
            room: self.room - (2 * count + 2),
        };
        self.out.push_reserved(ticket);
        self.kept += places_of(ticket);
        self.room = 0;
        Span::new(ticket, runs)
    }

    /// Puts a span back: its pages are in again, with the span's states.
    pub fn put(&mut self, span: Span)
        requires { is_out self.old.out span.ticket ≡ true }
        ensures states { (page : ℕ) → state_in self.new.runs page
            ≡ (if in_range span.ticket.pages.first span.ticket.pages.count page
            then state_in span.runs page else state_in self.old.runs page) }
        ensures out { self.new.out ≡ without span.ticket self.old.out }
        ensures room { span.ticket.room ≤ self.new.room }
        ensures room_kept { self.old.room ≤ self.new.room }
    {
        let (ticket, runs) = span.into_parts();
        remove_ticket(&mut self.out, ticket);
        join_placed(&self.runs, ticket.pages.first, &runs, &mut self.next);
        renew(&mut self.runs, &mut self.next);
        self.kept -= places_of(ticket);
        give_back(&mut self.spare, &mut self.room, runs, ticket.room);
    }

    /// The state of a page. None exactly where it isn't RAM or is out.
    pub fn state(&self, page: Page) -> Option<PageState>
        ensures { result ≡ state_in self.now.runs page.0 }
    {
        for run in &self.runs {
            if run.pages.holds(page) {
                return Some(run.state);
            }
        }
        None
    }

    /// The maximal runs of one state, rising, where no page is out.
    pub fn runs(&self, alloc: Global) -> Result<Runs, AllocError>
        requires { self.now.out ≡ [] }
        ensures { IfOk result (AreMaximalRuns (state_in self.now.runs)) }
    {
        let runs = Vec::from_slice(alloc, self.runs.as_slice())?;
        Ok(Runs::from_vec(runs))
    }
}

/// The runs that were written anew take the place of the old ones.
fn renew(runs: &mut Vec<PageRun>, next: &mut Vec<PageRun>)
    ensures runs { runs.new.items ≡ next.old.items }
    ensures next { next.new.items ≡ [] }
    ensures capacity { vec_capacity runs.new ≡ vec_capacity next.old }
    ensures next_capacity { vec_capacity next.new ≡ vec_capacity runs.old }
{
    mem::swap(runs, next);
    next.clear();
}

/// A span's storage and its room are the table's again, where it has no more room of its own.
fn give_back(spare: &mut Vec<TakenRun>, room: &mut u64, runs: Vec<TakenRun>, given: u64)
    requires empty { spare.old.items ≡ [] }
    requires fits { room.old ≤ vec_capacity spare.old }
    requires given { given ≤ vec_capacity runs }
    ensures room { room.new ≡ max room.old given }
    ensures empty { spare.new.items ≡ [] }
    ensures fits { room.new ≤ vec_capacity spare.new }
{
    let mut runs = runs;
    if *room < given {
        runs.clear();
        *spare = runs;
        *room = given;
    }
}

ghost use Rattle.page_module.specs.Building.{places};

/// The places that a table keeps for a span that is out.
fn places_of(ticket: Ticket) -> u64
    requires { places ticket < 2 ^ 64 }
    ensures { result ≡ places ticket }
{
    2 * ticket.runs + ticket.room
}

ghost use Rattle.page_module.specs.Tables.{is_out, without, same_ticket};

/// Removes the first ticket that is equal to this one.
fn remove_ticket(out: &mut Vec<Ticket>, ticket: Ticket)
    requires { is_out out.old.items ticket ≡ true }
    ensures out { out.new.items ≡ without ticket out.old.items }
    ensures capacity { vec_capacity out.new ≡ vec_capacity out.old }
{
    for at in 0..out.len() {
        if is_same(out[at], ticket) {
            let _ = out.remove(at);
            return;
        }
    }
    unreachable!()
}

fn is_same(a: Ticket, b: Ticket) -> bool
    ensures { result ≡ same_ticket a b }
{
    a == b
}
