//! The steps of a processor's course, for which room was taken.
ghost use Rattle.std.specs.Prelude.{◌≡◌, ◌≢◌, [], ◌∷◌, ◌++◌, ◌+◌, ◌^◌, ◌<◌, ◌≤◌, None, Some, All, List, length, OnOk, OnErr, IsTrue, ◌↔◌, ℕ, map};
ghost use Rattle.std.specs.Option.{option_map};
ghost use Rattle.event_core.specs.declared.command.Command.TheVariants.{Accept, Query};
ghost use Rattle.event_core.specs.declared.event.Event.TheVariants.{Asked};
ghost use Rattle.event_core.specs.declared.reply.Reply.TheVariants as reply;
ghost use Rattle.event_core.specs.declared.entry.Place.TheVariants.{Memory as InMemory};
ghost use Rattle.event_core.specs.declared.module_call.ModuleCall.{ModuleCall};
ghost use Rattle.event_core.specs.Claims.{Claimed, claim_of};
ghost use Rattle.event_core.specs.Legal.{greatest_stamp};
ghost use Rattle.event_core.specs.MemoryRows.{some_unaccepted};
ghost use Rattle.event_core.specs.Own.{ended, replied};
ghost use Rattle.event_core.specs.Refusals.{memory_range_refusal};
ghost use Rattle.event_core.specs.Units.{guarded_units};
ghost use Rattle.accept_sizes.specs.declared.accept.RunEnd.{RunEnd};
ghost use Rattle.held_blocks.specs.Holdings.{own_in as own_held, Leaves};
ghost use Rattle.memory_core.specs.Steps.{unaccepted_count};
ghost use Rattle.memory_core.specs.UnderLock.{unmoved};
ghost use Rattle.guest_steps.specs.declared.processor.Need.TheVariants as need;
ghost use Rattle.guest_cpu.specs.Progressing.{command_of, need_in};
ghost use Rattle.guest_cpu.specs.Wanting.{as_command, is_alloc};
ghost use Rattle.guest_cpu.specs.Kept.{HasRoom, runs_in};
ghost use Rattle.guest_cpu.specs.Made.{entry_at};
ghost use Rattle.guest_cpu.specs.Stepping.{Adds, AreRunsAmong, Begins, MayStep, OnlyRoom, Reportable, Reports, claim_made, going_on, runs_with};

use crate::answers::{after_report, reply_of_claim};
use crate::made::MadeEntries;
use crate::progress::{Progress, RunRoom};
use crate::runs::{Worked, go_on, worked_run};
use crate::wanted::{Wanted, need_of};
use event_core::{Command, Event, Reply, Turn};
use guest_base::{Block, Units};
use guest_steps::{Need, Stepped};
use held_blocks::Holdings;
use memory_core::{Begin, Memory, stopped_page};
use page_module::Span;
use std::alloc::{AllocError, Global};
use std::collections::VecDeque;

/// Behind a reply the looks of the command count no more.
pub(crate) fn end_looks(held: &mut Holdings, reply: &Option<Reply>)
    ensures { Leaves held.old held.new (ended reply.now (own_held held.old)) }
{
    if reply.is_some() {
        held.ended();
    }
}

/// Adds an entry under the memory's lock, by the turn behind it, in the room that was taken. With a reply the looks of the command
/// count no more.
pub(crate) fn add_there(
    held: &mut Holdings,
    made: &mut MadeEntries,
    turn: Turn,
    event: Event,
    reply: Option<Reply>,
)
    requires { 0 < made.old.room }
    ensures held { Leaves held.old held.new (ended reply (own_held held.old)) }
    ensures moved { made.new.moved
        ≡ made.old.moved ++ unmoved (entry_at turn InMemory event reply) ∷ [] }
    ensures room { made.old.room ≡ made.new.room + 1 }
{
    end_looks(held, &reply);
    made.add_there(turn, event, reply);
}

impl Progress {
    /// What the present command asks, which needs the memory.
    pub(crate) fn wanted(&self) -> Wanted
        requires rests { self.now.out ≡ None }
        requires need { need_in self.now ≡ need.Memory }
        ensures { command_of self.now ≡ Some (as_command result) }
    {
        Wanted::of(
            &self.held,
            self.number,
            self.script.get(self.made.replies()),
        )
    }

    /// What the next step needs.
    pub(crate) fn next_need(&self) -> Need
        ensures { result ≡ need_in self.now }
    {
        if self.open_run.is_some() {
            return Need::Memory;
        }
        let number = self.made.replies();
        if number < self.script.len() {
            need_of(&self.held, self.number, self.script.get(number))
        } else {
            Need::Finished
        }
    }

    /// Whether a claim is open, whose run is out.
    pub(crate) fn is_claiming(&self) -> bool
        ensures { IsTrue result ↔ (self.now.out ≢ None) }
    {
        self.open_run.is_some()
    }

    /// The greatest stamp of the entries.
    pub(crate) fn clock(&self) -> u128
        ensures { result ≡ greatest_stamp self.now.moved }
    {
        self.made.clock()
    }

    /// Takes room for `count` more entries.
    pub(crate) fn reserve(&mut self, count: u64) -> Result<(), AllocError>
        ensures ok { OnOk result (count ≤ self.new.room) }
        ensures same { OnlyRoom self.old self.new }
    {
        self.made.reserve(count)
    }

    /// Tells whether a range of memory has an unaccepted unit: the present command, for which there is room.
    pub(crate) fn query(&mut self, memory: &mut Memory, start: u64, len: u64)
        requires command { command_of self.old ≡ Some (Query start len) }
        requires fine { memory_range_refusal start len ≡ None }
        requires may { MayStep self.old memory.old }
        requires room { 0 < self.old.room }
        requires memory_room { 0 < memory.old.room }
        ensures adds { let found = some_unaccepted self.old.boot memory.old.entries
            (guarded_units self.old.boot start len) in
            Adds self.old self.new memory.old memory.new (Asked found) (Some (reply.Query found)) }
        ensures same { self.new ≡ record self.old {
          moved = self.new.moved;
          room = self.new.room;
        } }
    {
        let mut turn = self.made.turn(self.number);
        let found = memory.query(&mut turn, start, len);
        let event = Event::Asked { found };
        let reply = Some(Reply::Query(found));
        add_there(&mut self.held, &mut self.made, turn, event, reply);
    }

    /// Claims the guarded units of a range, for whose unaccepted runs there is room: the present command.
    pub(crate) fn begin(
        &mut self,
        memory: &mut Memory,
        start: u64,
        len: u64,
        rooms: VecDeque<RunRoom>,
    ) -> Stepped
        requires fine { memory_range_refusal start len ≡ None }
        requires may { MayStep self.old memory.old }
        requires room { length rooms.items < self.old.room }
        requires rooms { All (HasRoom self.old.boot) rooms.items }
        requires runs { AreRunsAmong memory.old
            (guarded_units memory.old.boot start len) (runs_in rooms.items) }
        requires memory_room { unaccepted_count memory.old.boot memory.old.entries
            (guarded_units memory.old.boot start len) < memory.old.room }
        ensures { Begins self.old self.new memory.old memory.new
            start len (runs_in rooms.items) result }
    {
        let units = memory.claim_units(start, len);
        let mut turn = self.made.turn(self.number);
        match memory.begin_accept(&mut turn, start, len) {
            Begin::Blocked(_) => Stepped::Blocked,
            Begin::Clear => self.claim(turn, None, units, None, rooms),
            Begin::Claimed(span) => self.claim(turn, None, units, Some(span), rooms),
        }
    }

    /// Adds the entry of a claim, for a waiting block or for none, of whose runs the first is out in the span, if any.
    pub(crate) fn claim(
        &mut self,
        turn: Turn,
        block: Option<Block>,
        units: Option<Units>,
        span: Option<Span>,
        rooms: VecDeque<RunRoom>,
    ) -> Stepped
        requires rests { self.old.out ≡ None }
        requires some { span ≢ None → rooms.items ≢ [] }
        requires room { length rooms.items < self.old.room }
        requires rooms { All (HasRoom self.old.boot) rooms.items }
        ensures event { result ≡ Stepped.Event }
        ensures course { let runs = runs_with span (runs_in rooms.items) in
            self.new ≡ going_on self.old (claim_made turn block units runs)
            span runs self.new.room }
    {
        let mut rooms = rooms;
        let run = go_on(&mut self.open_run, &mut rooms, span);
        self.later = rooms;
        let event = Event::Claim { block, units, run };
        let reply = reply_of_claim(block, run);
        add_there(&mut self.held, &mut self.made, turn, event, reply);
        Stepped::Event
    }

    /// Whether the present command is an allocation, whose claims are for blocks.
    fn is_for_block(&self) -> bool
        ensures { result ≡ is_alloc (command_of self.now) }
    {
        let number = self.made.replies();
        number < self.script.len() && matches!(self.script.get(number), Command::Alloc { .. })
    }

    /// Reports the open run, which was worked on.
    pub(crate) fn report(&mut self, memory: &mut Memory)
        requires may { Reportable self.old memory.old }
        ensures { (calls : List ModuleCall) (end : RunEnd)
            → self.old.done ≡ Some (record { calls = calls; end = end })
            → (claim : Claimed)
            → claim_of memory.old.boot memory.old.entries self.old.number ≡ Some claim
            → Reports self.old self.new memory.old memory.new claim calls end }
    {
        let for_block = self.is_for_block();
        let Worked {
            run,
            span,
            calls,
            copy,
            end,
        } = worked_run(self.open_run.take());
        let mut turn = self.made.turn(self.number);
        let (span, reply) = after_report(memory.report(&mut turn, span, calls, end), for_block);
        let next = go_on(&mut self.open_run, &mut self.later, span);
        let event = Event::Report {
            run,
            calls: copy,
            stopped: stopped_page(end),
            next,
        };
        add_there(&mut self.held, &mut self.made, turn, event, reply);
    }
}
