//! What a processor holds.
ghost use Rattle.std.specs.Prelude.{◌≡◌, ◌<◌, ◌==◌, None, Some, false, OnOk};
ghost use Rattle.std.specs.Option.{ForSome, IsSome, option_map};
ghost use Rattle.block_laws.specs.Unconverting.{ConvertsNothing};
ghost use Rattle.dma_map.specs.Pools.{HasPool, IsLayout};
ghost use Rattle.event_core.specs.declared.boot.Boot.{Boot};
ghost use Rattle.event_core.specs.declared.command.Command.TheVariants.{Map};
ghost use Rattle.event_core.specs.declared.event.Event.TheVariants.{Got};
ghost use Rattle.event_core.specs.declared.reply.Reply.TheVariants.{Zero};
ghost use Rattle.event_core.specs.Holdings.{block_named, is_mapped, mapping_named};
ghost use Rattle.event_core.specs.Own.{after_alloc, nothing, without_block};
ghost use Rattle.event_core.specs.Refusals.{past_end, refusal_of, refuse, unknown_or};
ghost use Rattle.guest_base.specs.declared.transfer.Direction.{Direction as DirectionValue};
ghost use Rattle.held_blocks.specs.Held.{blocks_of, is_held, IsInMemory};
ghost use Rattle.held_blocks.specs.Holdings.{own_in, Leaves, LeavesAll};

use crate::held::HeldBlocks;
use crate::refusals::{
    refuse_bytes, refuse_host, refuse_host_span, refuse_load, refuse_map, refuse_mapped,
    refuse_part, refuse_part_span, refuse_range, refuse_span, refuse_taken, refuse_unmapped,
};
use dma_map::{Layout, Mappings};
use event_core::{Command, Name, Reply};
use guest_base::Block;
use std::alloc::{AllocError, Global};
use std::marker::Model;

/// What a processor holds: its blocks, each private to the guest, with their bytes, its live mappings, each of bytes of one of
/// these blocks, and how many looks for the present mapping found nothing.
///
/// Contracts see of it the blocks, the mappings, the looks and the layout of the pool, which tell all that the processor has.
#[derive(Debug, Drop)]
pub struct Holdings {
    pub(crate) blocks: HeldBlocks,
    pub(crate) mappings: Mappings,
    pub(crate) looks: u32,
    pub(crate) layout: Option<Layout>,
}

impl Model for Holdings {
    ghost use Rattle.held_blocks.specs.Holdings.{HoldingsStand, HoldingsValue, own_by};

    ghost Value = { HoldingsValue };

    ghost view = { λ h. record {
      held = h.blocks;
      kept = h.mappings;
      looks = h.looks;
      layout = h.layout;
    } };

    ghost invariant = { λ h. HoldingsStand (own_by h.blocks h.mappings h.looks) h.layout };
}

impl Holdings {
    /// A processor that has nothing, where the pool has this layout, or there is none.
    pub fn new(alloc: Global, layout: Option<Layout>) -> Holdings
        requires { ForSome layout IsLayout }
        ensures own { own_in result ≡ nothing }
        ensures layout { result.layout ≡ layout }
    {
        Holdings {
            blocks: HeldBlocks::new(alloc),
            mappings: Mappings::new(alloc),
            looks: 0,
            layout,
        }
    }

    /// The layout of the pool. None exactly where there is no pool.
    pub fn layout(&self) -> Option<Layout>
        ensures layout { result ≡ self.now.layout }
        ensures stands { ForSome result IsLayout }
    {
        self.layout
    }

    /// The block of a name. None exactly where no block that is held has it.
    pub fn block_of(&self, name: &Name) -> Option<Block>
        ensures block { result
            ≡ option_map (λ h. h.block) (block_named (own_in self.now) name.now) }
        ensures memory { ForSome result IsInMemory }
    {
        self.blocks.block_of(name)
    }

    /// The block of a name that has one.
    pub fn named(&self, name: &Name) -> Block
        requires { IsSome (block_named (own_in self.now) name.now) }
        ensures named { option_map (λ h. h.block) (block_named (own_in self.now) name.now)
            ≡ Some result }
        ensures memory { IsInMemory result }
    {
        match self.blocks.block_of(name) {
            Some(block) => block,
            None => unreachable!(),
        }
    }

    /// The refusal of a command that converts no block. None exactly where it isn't refused.
    pub fn refusal(&self, command: &Command) -> Option<Reply>
        requires { ConvertsNothing command.now }
        ensures { (boot : Boot) → HasPool boot self.now.layout
            → result ≡ refusal_of boot (own_in self.now) command.now }
    {
        match command {
            Command::Alloc { name, .. } => refuse_taken(self.blocks.block_of(name)),
            Command::Free { name } => refuse_mapped(self.blocks.block_of(name), &self.mappings),
            Command::Accept { start, len } => refuse_range(*start, *len),
            Command::Query { start, len } => refuse_range(*start, *len),
            Command::Read { name, off, len } => {
                refuse_span(self.blocks.block_of(name), *off, *len)
            }
            Command::Write { name, off, hex } => {
                refuse_bytes(self.blocks.block_of(name), *off, hex.len())
            }
            Command::Fill { name, off, len, .. } => {
                refuse_span(self.blocks.block_of(name), *off, *len)
            }
            Command::Load { name, off } => refuse_load(self.blocks.block_of(name), *off),
            Command::Map {
                mapping,
                name,
                off,
                len,
                mask,
                ..
            } => self.map_refusal(mapping, name, *off, *len, *mask),
            Command::SyncDev { mapping, off, len } => self.span_refusal(mapping, *off, *len),
            Command::SyncCpu { mapping, off, len } => self.span_refusal(mapping, *off, *len),
            Command::Unmap { mapping, .. } => refuse_unmapped(self.mappings.find(mapping)),
            Command::DRead { mapping, off, len } => self.span_refusal(mapping, *off, *len),
            Command::DWrite { mapping, off, hex } => {
                refuse_part(self.mappings.find(mapping), *off, hex.len())
            }
            Command::HostRead { off, len } => refuse_host_span(self.layout, *off, *len),
            Command::HostWrite { off, hex } => refuse_host(self.layout, *off, hex.len()),
            _ => unreachable!(),
        }
    }

    /// The refusal of a mapping of bytes of a block.
    fn map_refusal(
        &self,
        mapping: &Name,
        name: &Name,
        off: u64,
        len: u64,
        mask: u64,
    ) -> Option<Reply>
        ensures { (boot : Boot) (direction : DirectionValue) → HasPool boot self.now.layout
            → result ≡ refusal_of boot (own_in self.now)
            (Map mapping.now name.now off len direction mask) }
    {
        match self.mappings.find(mapping) {
            Some(_) => Some(Reply::Taken),
            None => refuse_map(self.blocks.block_of(name), off, len, mask, self.layout),
        }
    }

    /// The refusal of a range of bytes of a mapping.
    fn span_refusal(&self, mapping: &Name, off: u64, len: u64) -> Option<Reply>
        ensures { result ≡ unknown_or (mapping_named (own_in self.now) mapping.now)
            (λ m. refuse Zero (len == 0) (past_end m.run.len off len)) }
    {
        refuse_part_span(self.mappings.find(mapping), off, len)
    }
}

impl Holdings {
    /// Makes room for one more block. `AllocError` is out of memory. Whatever the answer, nothing but room changes.
    pub fn reserve_block(&mut self) -> Result<(), AllocError>
        ensures ok { OnOk result (0 < self.new.held.room) }
        ensures same { LeavesAll self.old self.new }
    {
        self.blocks.reserve()
    }

    /// Holds one more block, whose bytes are all zero. It needs room for one, and can't fail.
    pub fn got(&mut self, alloc: Global, name: Name, block: Block)
        requires room { 0 < self.old.held.room }
        requires memory { IsInMemory block }
        requires other { is_held block (blocks_of self.old.held) ≡ false }
        requires fresh { block_named (own_in self.old) name ≡ None }
        ensures { Leaves self.old self.new (after_alloc name (Got block) (own_in self.old)) }
    {
        self.blocks.got(alloc, name, block);
    }

    /// No longer holds the block of a name, which no live mapping is of, and forgets its bytes. Where no block has the name
    /// nothing changes.
    pub fn freed(&mut self, name: &Name)
        requires { ForSome (block_named (own_in self.old) name.now) (λ h.
            is_mapped (own_in self.old) h.block ≡ false) }
        ensures { Leaves self.old self.new (without_block name.now (own_in self.old)) }
    {
        self.blocks.freed(name);
    }
}
