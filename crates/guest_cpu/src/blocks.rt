//! The steps of a processor's course that are about blocks, for which room was taken.
ghost use Rattle.std.specs.Prelude.{◌≡◌, ◌<◌, ◌≤◌, Some, None, All, IfOk, OnErr, length, map, false, true};
ghost use Rattle.std.specs.Option.{ForSome, IsSome, option_map};
ghost use Rattle.guest_base.specs.declared.limits.TheConstants.{MAX_ORDER};
ghost use Rattle.guest_base.specs.declared.memory.Block.{Block as BlockValue};
ghost use Rattle.event_core.specs.declared.command.Command.TheVariants.{Alloc, Free, Load};
ghost use Rattle.event_core.specs.Holdings.{Holding, block_named};
ghost use Rattle.event_core.specs.OwnRows.{is_inside, page_behind, strayed_bytes};
ghost use Rattle.event_core.specs.Refusals.{refusal_of};
ghost use Rattle.guest_steps.specs.Seen.{need_unrefused};
ghost use Rattle.guest_steps.specs.declared.processor.Need.TheVariants as need;
ghost use Rattle.held_blocks.specs.Held.{IsInMemory};
ghost use Rattle.memory_core.specs.Owners.{is_owner};
ghost use Rattle.memory_core.specs.Steps.{unaccepted_count};
ghost use Rattle.memory_core.specs.Waiting.{waiting_units};
ghost use Rattle.guest_cpu.specs.Blocks.{FreesNamed, StraysFrom};
ghost use Rattle.guest_cpu.specs.Kept.{HasRoom, runs_in};
ghost use Rattle.guest_cpu.specs.Looking.{LooksFor};
ghost use Rattle.guest_cpu.specs.Progressing.{command_of, own_in};
ghost use Rattle.guest_cpu.specs.Stepping.{AreRunsAmong, MayStep};

use crate::progress::{Progress, RunRoom};
use crate::steps::add_there;
use event_core::{Event, Name, Reply};
use guest_base::limits::PAGE_BYTES;
use guest_base::{Block, Bytes, Page};
use guest_steps::Stepped;
use memory_core::{Look, Memory};
use std::alloc::{AllocError, Global};
use std::collections::VecDeque;

/// The page behind a block.
fn behind(block: Block) -> Page
    requires { IsInMemory block }
    ensures { result.0 ≡ page_behind block }
{
    Page(block.first + (1 << block.order))
}

impl Progress {
    /// Frees the block of a name: the present command, for which there is room.
    pub(crate) fn free(&mut self, memory: &mut Memory, name: &Name)
        requires command { command_of self.old ≡ Some (Free name.now) }
        requires fine { refusal_of self.old.boot (own_in self.old) (Free name.now) ≡ None }
        requires owner { ForSome (block_named (own_in self.old) name.now)
            (λ h. is_owner memory.old.entries self.old.number h.block ≡ true) }
        requires may { MayStep self.old memory.old }
        requires room { 0 < self.old.room }
        requires memory_room { 0 < memory.old.room }
        ensures frees { FreesNamed self.old self.new memory.old memory.new name.now }
        ensures same { self.new ≡ record self.old {
          moved = self.new.moved;
          room = self.new.room;
        } }
    {
        let block = self.held.named(name);
        let mut turn = self.made.turn(self.number);
        memory.free(&mut turn, block);
        self.held.freed(name);
        let event = Event::Freed { block };
        add_there(
            &mut self.held,
            &mut self.made,
            turn,
            event,
            Some(Reply::Done),
        );
    }

    /// The bytes of a load that ends past the block of a name: the present command. `AllocError` is out of memory.
    pub(crate) fn strayed(&self, alloc: Global, name: &Name, off: u64) -> Result<Bytes, AllocError>
        requires fine { refusal_of self.now.boot (own_in self.now) (Load name.now off) ≡ None }
        requires need { need_unrefused self.now.boot self.now.number (own_in self.now)
            (Load name.now off) ≡ need.Memory }
        ensures { IfOk result (λ bytes. ForSome (block_named (own_in self.now) name.now)
            (λ h. bytes ≡ strayed_bytes h off)) }
    {
        self.held.load(alloc, name, off)
    }

    /// Loads eight bytes that end past the block of a name: the present command, for which there is room.
    pub(crate) fn stray(&mut self, memory: &mut Memory, name: &Name, off: u64, bytes: Bytes)
        requires command { command_of self.old ≡ Some (Load name.now off) }
        requires fine { refusal_of self.old.boot (own_in self.old) (Load name.now off) ≡ None }
        requires bytes { ForSome (block_named (own_in self.old) name.now)
            (λ h. bytes ≡ strayed_bytes h off) }
        requires owner { ForSome (block_named (own_in self.old) name.now)
            (λ h. is_owner memory.old.entries self.old.number h.block ≡ true) }
        requires may { MayStep self.old memory.old }
        requires room { 0 < self.old.room }
        requires memory_room { 0 < memory.old.room }
        ensures strays { StraysFrom self.old self.new memory.old memory.new name.now off }
        ensures same { self.new ≡ record self.old {
          moved = self.new.moved;
          room = self.new.room;
        } }
    {
        let page = behind(self.held.named(name));
        let mut turn = self.made.turn(self.number);
        let found = memory.load_touch(&mut turn, page);
        let event = Event::Touched { page, found };
        let reply = Some(Reply::Loaded(bytes, Some(found)));
        add_there(&mut self.held, &mut self.made, turn, event, reply);
    }

    /// Looks for a block of an order: the present command, with room for all unaccepted runs of the lowest waiting block. After
    /// `AllocError`, which is out of memory, nothing has changed.
    pub(crate) fn look(
        &mut self,
        alloc: Global,
        memory: &mut Memory,
        name: Name,
        order: u32,
        rooms: VecDeque<RunRoom>,
    ) -> Result<Stepped, AllocError>
        requires command { command_of self.old ≡ Some (Alloc name order) }
        requires fine { refusal_of self.old.boot (own_in self.old) (Alloc name order) ≡ None }
        requires order { order ≤ MAX_ORDER }
        requires owned { All (λ (block : BlockValue).
            is_owner memory.old.entries self.old.number block ≡ true)
            (map (λ (h : Holding). h.block) (own_in self.old).blocks) }
        requires may { MayStep self.old memory.old }
        requires room { length rooms.items < self.old.room }
        requires rooms { All (HasRoom self.old.boot) rooms.items }
        requires runs { AreRunsAmong memory.old
            (waiting_units memory.old.boot memory.old.entries) (runs_in rooms.items) }
        requires memory_room { unaccepted_count memory.old.boot memory.old.entries
            (waiting_units memory.old.boot memory.old.entries) < memory.old.room }
        ensures looks { IfOk result (λ ended. LooksFor self.old self.new memory.old memory.new
            order (runs_in rooms.items) ended) }
        ensures refused { OnErr result ((self.new ≡ self.old) × (memory.new ≡ memory.old)) }
    {
        self.held.reserve_block()?;
        let (block, units) = (memory.waiting_block(), memory.waiting_units());
        let mut turn = self.made.turn(self.number);
        match memory.alloc_look(&mut turn, order) {
            Look::Got(block) => {
                self.held.got(alloc, name, block);
                let event = Event::Got { block };
                let reply = Some(Reply::Addr(PAGE_BYTES * block.first));
                add_there(&mut self.held, &mut self.made, turn, event, reply);
                Ok(Stepped::Event)
            }
            Look::NoBlock => {
                let reply = Some(Reply::NoBlock);
                add_there(&mut self.held, &mut self.made, turn, Event::NoBlock, reply);
                Ok(Stepped::Event)
            }
            Look::Blocked(_) => Ok(Stepped::Blocked),
            Look::InFlight(_) => Ok(Stepped::Blocked),
            Look::Cleared => Ok(self.claim(turn, block, units, None, rooms)),
            Look::Claimed(span) => Ok(self.claim(turn, block, units, Some(span), rooms)),
        }
    }
}
