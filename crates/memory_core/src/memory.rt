//! What the memory lock holds.
ghost use Rattle.std.specs.Prelude.{◌≡◌, ◌≢◌, ℕ, List, [], ◌+◌, ◌-◌, ◌^◌, ◌<◌, ◌≤◌, None, Some, Option, IfSome, IfOk, OnOk, OnErr, max};
ghost use Rattle.std.specs.Option.{ForSome};
ghost use Rattle.event_core.specs.declared.event.Event.TheVariants.{Asked, Claim};
ghost use Rattle.event_core.specs.Runs.{state_in as first_state_of};
ghost use Rattle.event_core.specs.Calls.{calls_of, SoundCalls};
ghost use Rattle.event_core.specs.Claims.{Claimed, claim_of};
ghost use Rattle.event_core.specs.Locally.{Rising};
ghost use Rattle.event_core.specs.MemoryRows.{page_state, report_event, run_of_claim, some_unaccepted};
ghost use Rattle.event_core.specs.Units.{bit_after, first_run, guarded_units, unit_pages};
ghost use Rattle.event_laws.specs.Coming.{BootMade};
ghost use Rattle.page_module.specs.States.{state_in};
ghost use Rattle.accept_sizes.specs.Ends.{stopped_at};
ghost use Rattle.block_allocator.specs.State.{IsBlock, IsLowestWaiting, MayPut};
ghost use Rattle.memory_core.specs.Away.{MayReport, WaitingFalls};
ghost use Rattle.memory_core.specs.Bitmaps.{BitsAfter};
ghost use Rattle.memory_core.specs.KeptBlocks.{Begins, BlocksAfter, PutBack};
ghost use Rattle.memory_core.specs.Value.{handed_to};
ghost use Rattle.memory_core.specs.Steps.{last_stamp, unaccepted_count, claim_of_units, Appends, BringsTo, IsByteRange, IsForLowest, MayBegin};

use crate::claims::{OpenClaim, next_run_of, with_next};
use crate::entries::append;
use crate::pages::{clear_run, run_pages, stopped_page};
use crate::units::{
    both_of, count_unaccepted, first_run_of, guarded_units_of, has_unaccepted, overlap_of,
    run_from, runs_behind,
};
use accept_sizes::RunEnd;
use accepting_ranges::Accepting;
use block_allocator::Blocks;
use claim_lock::Parted;
use event_core::{Boot, Calls, Entries, Entry, Event, NoRoom, Turn};
use guest_base::{Block, CpuNo, Items, Unit, Units};
use page_module::{PageTable, Span};
use std::alloc::{AllocError, Global};
use std::marker::Model;
use std::mem;
use std::snapshot::Snapshot;
use unaccepted_bitmap::Bitmap;

/// What `begin_accept` answers.
#[derive(Debug, Drop)]
pub enum Begin {
    /// No guarded unit of the range is unaccepted: the claim is closed in the same step.
    Clear,
    /// The guarded units are claimed, and the pages of their first run of unaccepted units are out in this span.
    Claimed(Span),
    /// These units of an open claim meet the guarded ones; nothing has changed.
    Blocked(Units),
}

/// What `alloc_look` answers.
#[derive(Debug, Drop)]
pub enum Look {
    /// The processor owns this block now.
    Got(Block),
    /// The lowest waiting block has no unaccepted unit, and is free now: the processor looks again.
    Cleared,
    /// The lowest waiting block is claimed, and the pages of its first run of unaccepted units are out in this span.
    Claimed(Span),
    /// These units of an open claim meet the guarded ones of the lowest waiting block; nothing has changed.
    Blocked(Units),
    /// No free block suffices and none waits, but this processor accepts one; nothing has changed.
    InFlight(CpuNo),
    /// No free block suffices, none waits, and none is being accepted.
    NoBlock,
}

/// What `report` answers.
#[derive(Debug, Drop)]
pub enum Reported {
    /// The claim goes on with the pages of its next run, which are out in this span.
    Next(Span),
    /// The claim is closed, and has cleared the bits of this many units.
    Closed(u64),
    /// The acceptance stopped, and the claim is closed.
    Stopped,
}

/// What the lock of the memory holds: the states of pages, which units are unaccepted, the claims that are open, the free and the
/// waiting blocks, and the memory's entries.
///
/// Contracts see how the guest was booted, the entries, what is out with each processor for its open claim, and the room for the
/// next step, which is one more than the units that it may accept.
#[derive(Drop)]
pub struct Memory {
    pub(crate) alloc: Global,
    pub(crate) boot: Snapshot<Boot>,
    pub(crate) table: PageTable,
    /// None where the map has no unaccepted descriptor.
    pub(crate) bits: Option<Bitmap>,
    /// The open claims.
    pub(crate) accepting: Accepting<OpenClaim>,
    /// The free and the waiting blocks.
    pub(crate) blocks: Blocks,
    /// The list for the runs of the next claim; empty.
    pub(crate) spare: Vec<Units>,
    pub(crate) entries: Vec<Entry>,
    /// The stamp of the last entry.
    pub(crate) last: u128,
    /// The pages of a unit.
    pub(crate) unit_pages: u64,
    /// The places in `entries` that are kept for the reports of open claims.
    pub(crate) kept: u64,
    pub(crate) room: u64,
}

impl Model for Memory {
    ghost use Rattle.std.specs.Prelude.{map};
    ghost use Rattle.memory_core.specs.Value.{MemoryValue};

    ghost Value = { MemoryValue };

    ghost use Rattle.memory_core.specs.StandsFor.{handed_for, IsSpare, StandsFor};

    ghost view = { λ m. record {
      boot = m.boot.value;
      entries = m.entries.items;
      out = map handed_for m.accepting;
      room = m.room;
    } };

    ghost invariant = { λ m.
        StandsFor m.boot.value m.entries m.last m.table m.bits m.accepting m.blocks
        m.unit_pages m.kept m.room
        × IsSpare m.spare m.room };
}

impl Parted for Memory {
    ghost use Rattle.memory_core.specs.UnderLock.{fixed_of, part_of, moved_of};

    ghost fixed = { fixed_of };

    ghost part = { part_of };

    ghost moved = { moved_of };
}

impl Memory {
    ghost use Rattle.memory_core.specs.Answers.{BegunBy, BegunFor, ReportedBy, IsBlocked, GivesTable, OthersKeep, UsesOne};

    /// The memory of a boot that was made of a map, with no entry and no room. The table has the states of the pages after boot's
    /// calls, and no page is out; the bitmap has the bits after boot's calls. The blocks of the cut that wait at boot wait, and the
    /// pages of the others are free.
    pub fn new(
        alloc: Global,
        boot: &Boot,
        table: PageTable,
        bits: Option<Bitmap>,
        blocks: Blocks,
    ) -> Result<Memory, AllocError>
        requires made { BootMade boot.now }
        requires sound { SoundCalls (first_state_of boot.now.ram) boot.now.calls }
        requires cpus { boot.now.cpus ≤ 64 }
        requires states { (page : ℕ) → state_in table.runs page
            ≡ page_state boot.now boot.now.calls page }
        requires none_out { table.out ≡ [] }
        requires bits { BitsAfter boot.now boot.now.calls bits }
        requires blocks { BlocksAfter boot.now [] blocks }
        ensures boot { IfOk result (λ m. m.boot ≡ boot.now) }
        ensures entries { IfOk result (λ m. m.entries ≡ []) }
        ensures out { IfOk result (λ m. (cpu : ℕ) → handed_to m cpu ≡ None) }
    {
        Ok(Memory {
            alloc,
            boot: Snapshot::of(boot),
            table,
            bits,
            accepting: Accepting::new(),
            blocks,
            spare: Vec::new(alloc),
            entries: Vec::new(alloc),
            last: 0,
            unit_pages: boot.unit / 4096,
            kept: 0,
            room: 0,
        })
    }

    /// Takes room for the next step, and for an acceptance over `units` units until it closes. `Worn` comes exactly where the last
    /// stamp is 2^64 or more, and names it. After an error nothing has changed.
    pub fn reserve(&mut self, alloc: Global, units: u64) -> Result<(), NoRoom>
        ensures ok { OnOk result (self.new
            ≡ record self.old { room = max self.old.room (units + 1) }) }
        ensures failed { OnErr result (self.new ≡ self.old) }
        ensures worn { 2 ^ 64 ≤ last_stamp self.old.entries
            → result ≡ Err (NoRoom.Worn (last_stamp self.old.entries)) }
        ensures fresh { last_stamp self.old.entries < 2 ^ 64
            → (stamp : ℕ) → result ≢ Err (NoRoom.Worn stamp) }
    {
        if self.last >= 1 << 64 {
            return Err(NoRoom::Worn(self.last));
        }
        match self.take_room(alloc, units) {
            Ok(()) => Ok(()),
            Err(AllocError) => Err(NoRoom::NoMemory),
        }
    }

    fn take_room(&mut self, alloc: Global, units: u64) -> Result<(), AllocError>
        ensures ok { OnOk result (self.new
            ≡ record self.old { room = max self.old.room (units + 1) }) }
        ensures failed { OnErr result (self.new ≡ self.old) }
    {
        if self.room <= units {
            let room = units.checked_add(1).ok_or(AllocError)?;
            let places = self.kept.checked_add(room).ok_or(AllocError)?;
            self.entries.reserve(places as usize)?;
            self.spare.reserve(room as usize)?;
            let pieces = room.checked_mul(2 * self.unit_pages + 2).ok_or(AllocError)?;
            self.table.reserve(alloc, pieces)?;
            self.blocks.reserve(alloc, BLOCK_ROOM)?;
            self.room = room;
        }
        Ok(())
    }

    /// The units that an acceptance of the `len` bytes from the address `start` on claims, the guard among them; they end below 2^64.
    /// None exactly where there are none.
    pub fn claim_units(&self, start: u64, len: u64) -> Option<Units>
        requires { IsByteRange start len }
        ensures units { result ≡ guarded_units self.now.boot start len }
        ensures end { ForSome result (λ u. u.first + u.count < 2 ^ 64) }
    {
        guarded_units_of(&self.bits, start, len)
    }

    /// The first maximal run of unaccepted units from `from` on and below `to`, clipped to these.
    pub fn next_run(&self, from: Unit, to: Unit) -> Option<Units>
        ensures { result ≡ first_run
            (bit_after self.now.boot (calls_of self.now.boot self.now.entries)) from.0 to.0 }
    {
        run_from(&self.bits, from.0, to.0)
    }

    /// The number of unaccepted units among those that an acceptance of the bytes claims: for this many there has to be room.
    pub fn unaccepted_units(&self, start: u64, len: u64) -> u64
        requires { IsByteRange start len }
        ensures { result ≡ unaccepted_count self.now.boot self.now.entries
            (guarded_units self.now.boot start len) }
    {
        count_unaccepted(&self.bits, guarded_units_of(&self.bits, start, len))
    }

    /// The pages of a unit.
    pub fn unit_pages(&self) -> u64
        ensures { result ≡ unit_pages self.now.boot }
    {
        self.unit_pages
    }

    /// The stamp of the last entry, 0 where there is none.
    pub fn last(&self) -> u128
        ensures { result ≡ last_stamp self.now.entries }
    {
        self.last
    }

    /// Tells contracts that the entries rise, and that none made more blocks wait. It does nothing.
    pub fn show_rising(&self)
        ensures rising { Rising self.now.entries }
        ensures waiting { WaitingFalls self.now.boot self.now.entries }
    {
        let _ = &self.entries;
    }

    /// Claims the guarded units of a range of bytes for the turn's processor, which has no open claim, and takes out the pages of
    /// the first run of unaccepted ones. There has to be room for as many units as are unaccepted.
    ///
    /// `Blocked` comes exactly where an open claim meets the guarded units, and names that claim's: nothing changes then. `Clear`
    /// comes exactly where none is met and no guarded unit is unaccepted; it uses the room of one entry. With `Claimed` all the
    /// room goes with the claim, which needs no more until it closes.
    pub fn begin_accept(&mut self, turn: &mut Turn, start: u64, len: u64) -> Begin
        requires range { IsByteRange start len }
        requires step { MayBegin self.old turn.old (unaccepted_count
            self.old.boot self.old.entries (guarded_units self.old.boot start len)) }
        ensures begun { BegunBy self.old self.new turn.old
            (guarded_units self.old.boot start len) result }
        ensures blocked { IsBlocked result → (self.new ≡ self.old) × (turn.new ≡ turn.old) }
        ensures appends { ¬ IsBlocked result → Appends self.old self.new turn.old turn.new
            (claim_of_units self.old (guarded_units self.old.boot start len)) }
        ensures others { OthersKeep self.old self.new turn.old.cpu.0 }
    {
        let units = guarded_units_of(&self.bits, start, len);
        self.open_claim(turn, None, units)
    }

    /// Claims units for the turn's processor as `begin_accept` does, for no block or for the lowest waiting one, whose guarded
    /// units these are. The block waits no longer; with `Clear` it is free, and no room is left.
    pub(crate) fn open_claim(
        &mut self,
        turn: &mut Turn,
        block: Option<Block>,
        units: Option<Units>,
    ) -> Begin
        requires end { ForSome units (λ u. u.first + u.count < 2 ^ 64) }
        requires lowest { ForSome block (IsForLowest self.old units) }
        requires step { MayBegin self.old turn.old
            (unaccepted_count self.old.boot self.old.entries units) }
        ensures begun { BegunFor self.old self.new turn.old block units result }
        ensures blocked { IsBlocked result → (self.new ≡ self.old) × (turn.new ≡ turn.old) }
        ensures appends { ¬ IsBlocked result → Appends self.old self.new turn.old turn.new
            (Claim block units (run_of_claim self.old.boot self.old.entries units)) }
        ensures others { OthersKeep self.old self.new turn.old.cpu.0 }
    {
        if let Some(met) = overlap_of(&self.accepting, units) {
            return Begin::Blocked(met);
        }
        let run = first_run_of(&self.bits, units);
        let event = Event::Claim { block, units, run };
        append(&mut self.entries, &mut self.last, turn, event);
        start_block(&mut self.blocks, block, run);
        match both_of(units, run) {
            Some((units, run)) => {
                let span = self.table.take(run_pages(&self.bits, run));
                runs_behind(&self.bits, units, run, &mut self.spare);
                let claim = OpenClaim {
                    block,
                    units,
                    run,
                    later: mem::replace(&mut self.spare, Vec::new(self.alloc)),
                    opened: 0,
                    cleared: 0,
                    ticket: span.ticket(),
                    room: self.room - 1 - run.count,
                };
                self.kept += claim.room + 1;
                self.room = 0;
                self.accepting.add(turn.cpu, claim);
                Begin::Claimed(span)
            }
            None => {
                self.room = room_left(block, self.room);
                Begin::Clear
            }
        }
    }

    /// Reports the open run of the turn's processor: its pages, which come back in the span that is out for it, were brought to
    /// their states by `calls`, with this end, from those in which they were handed out. What other processors did meanwhile
    /// doesn't matter: these are the states of the pages still. The bits of the units without a pending page become clear.
    ///
    /// `Next` has the pages of the claim's next run. Where none is left, or the acceptance stopped, the claim closes: `Stopped`
    /// comes exactly where `end` is `Stopped`. The room that a report needs was taken with the claim.
    pub fn report(&mut self, turn: &mut Turn, span: Span, calls: Calls, end: RunEnd) -> Reported
        requires step { MayReport self.old turn.old span calls end }
        ensures reported { (claim : Claimed)
            → claim_of self.old.boot self.old.entries turn.old.cpu.0 ≡ Some claim
            → ReportedBy self.old self.new turn.old claim calls result }
        ensures appends { (claim : Claimed)
            → claim_of self.old.boot self.old.entries turn.old.cpu.0 ≡ Some claim
            → Appends self.old self.new turn.old turn.new (report_event self.old.boot claim calls) }
        ensures brings { (claim : Claimed)
            → claim_of self.old.boot self.old.entries turn.old.cpu.0 ≡ Some claim
            → BringsTo self.old.boot (calls_of self.old.boot self.old.entries)
            claim.run span calls end }
        ensures others { OthersKeep self.old self.new turn.old.cpu.0 }
    {
        let claim = self.accepting.remove(turn.cpu);
        let cleared = claim.cleared + clear_run(&mut self.bits, &span, claim.run);
        self.table.put(span);
        let next = next_run_of(&claim, end);
        let event = Event::Report {
            run: claim.run,
            calls,
            stopped: stopped_page(end),
            next,
        };
        append(&mut self.entries, &mut self.last, turn, event);
        match next {
            Some(run) => {
                let span = self.table.take(run_pages(&self.bits, run));
                let claim = with_next(claim, run, cleared, span.ticket());
                self.accepting.add(turn.cpu, claim);
                self.kept -= run.count;
                self.room = 0;
                Reported::Next(span)
            }
            None => {
                self.kept -= claim.room + 1;
                put_back(&mut self.blocks, claim.block, end);
                closed_by(end, cleared)
            }
        }
    }

    /// Whether a guarded unit of a range of bytes is unaccepted. It uses the room of one entry.
    pub fn query(&mut self, turn: &mut Turn, start: u64, len: u64) -> bool
        requires range { IsByteRange start len }
        requires step { MayBegin self.old turn.old 0 }
        ensures found { result ≡ some_unaccepted self.old.boot self.old.entries
            (guarded_units self.old.boot start len) }
        ensures uses { UsesOne self.old self.new }
        ensures appends { Appends self.old self.new turn.old turn.new (Asked result) }
        ensures others { OthersKeep self.old self.new turn.old.cpu.0 }
    {
        let found = has_unaccepted(&self.bits, start, len);
        append(
            &mut self.entries,
            &mut self.last,
            turn,
            Event::Asked { found },
        );
        self.room -= 1;
        found
    }

    /// The page table and the entries. The pages of the open claims' runs are out, and every other page is in, in its state after
    /// all entries. The entries rise.
    pub fn into_parts(self) -> (PageTable, Entries)
        ensures entries { result.1 ≡ self.entries }
        ensures rising { Rising self.entries }
        ensures table { GivesTable self result.0 }
    {
        let Memory {
            alloc: _,
            boot: _,
            table,
            bits: _,
            accepting: _,
            blocks: _,
            spare: _,
            entries,
            last: _,
            unit_pages: _,
            kept: _,
            room: _,
        } = self;
        (table, Items::from_vec(entries))
    }
}

ghost use Rattle.memory_core.specs.Answers.{answer_at, room_after};

/// The room for blocks that is taken with that for a step: for the parts of a block that is split, and for the blocks of 64 open
/// claims.
const BLOCK_ROOM: u64 = 74;

/// Takes a claim's block, if it has one, out of the waiting ones, of which it is the lowest. Where the claim has no run the block
/// is free.
fn start_block(blocks: &mut Blocks, block: Option<Block>, run: Option<Units>)
    requires lowest { ForSome block (IsLowestWaiting blocks.old) }
    requires block { ForSome block (IsBlock 10) }
    requires room { 1 ≤ blocks.old.room }
    ensures { Begins blocks.old blocks.new block run }
{
    if let Some(block) = block {
        blocks.take_unaccepted();
        if run.is_none() {
            blocks.put_accepted(block);
        }
    }
}

/// Puts the block of a closed claim, if it has one, among the free ones, or where its acceptance stopped among the waiting ones
/// again.
fn put_back(blocks: &mut Blocks, block: Option<Block>, end: RunEnd)
    requires may { ForSome block (MayPut blocks.old) }
    requires order { ForSome block (λ b. b.order ≡ 10) }
    requires room { ForSome block (λ b. 1 ≤ blocks.old.room) }
    ensures { PutBack blocks.old blocks.new block (stopped_at end) }
{
    if let Some(block) = block {
        match end {
            RunEnd::Whole => blocks.put_accepted(block),
            RunEnd::Stopped(_) => blocks.put_unaccepted(block),
        }
    }
}

/// The room that a claim without a run leaves.
fn room_left(block: Option<Block>, room: u64) -> u64
    requires { 1 ≤ room }
    ensures { result ≡ room_after block room }
{
    match block {
        None => room - 1,
        Some(_) => 0,
    }
}

/// The answer of a report that closes its claim.
fn closed_by(end: RunEnd, cleared: u64) -> Reported
    ensures { result ≡ answer_at end cleared }
{
    match end {
        RunEnd::Whole => Reported::Closed(cleared),
        RunEnd::Stopped(_) => Reported::Stopped,
    }
}
