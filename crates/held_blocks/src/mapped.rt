//! The live mappings of a processor, and the bytes that they move.
ghost use Rattle.std.specs.Prelude.{◌≡◌, ◌+◌, ◌<◌, ◌≤◌, ℕ, Some, true, length, IfOk, OnOk};
ghost use Rattle.std.specs.Option.{ForSome, IsSome, option_map};
ghost use Rattle.dma_map.specs.Kept.{live_of};
ghost use Rattle.event_core.specs.declared.event.Event.TheVariants.{Looked};
ghost use Rattle.event_core.specs.Holdings.{block_bytes, mapping_named};
ghost use Rattle.event_core.specs.Own.{after_map, copied_out, without_mapping};
ghost use Rattle.event_core.specs.PoolBytes.{block_bytes_of};
ghost use Rattle.held_blocks.specs.Held.{blocks_of, is_held, write_room, EndsWithin, IsInMemory};
ghost use Rattle.held_blocks.specs.Holdings.{own_in, IsPart, Leaves, LeavesAll};

use crate::holdings::Holdings;
use dma_map::Live;
use event_core::Name;
use guest_base::{Block, Bytes, Direction, SlotRun};
use std::alloc::{AllocError, Global};

/// The mapping of bytes of a block to slots.
fn live_at(block: Block, off: u64, run: SlotRun, direction: Direction) -> Live
    requires memory { IsInMemory block }
    requires within { off + run.len ≤ block_bytes block }
    ensures { result ≡ record { run = run; block = block; off = off; direction = direction } }
{
    Live {
        run,
        block,
        off: off as u32,
        direction,
    }
}

impl Holdings {
    /// The live mapping of a name. None exactly where no mapping has it.
    pub fn mapping(&self, mapping: &Name) -> Option<Live>
        ensures { result ≡ option_map live_of (mapping_named (own_in self.now) mapping.now) }
    {
        self.mappings.find(mapping)
    }

    /// The live mapping of a name that has one.
    pub fn live(&self, mapping: &Name) -> Live
        requires { IsSome (mapping_named (own_in self.now) mapping.now) }
        ensures live { option_map live_of (mapping_named (own_in self.now) mapping.now)
            ≡ Some result }
        ensures held { is_held result.block (blocks_of self.now.held) ≡ true }
        ensures within { result.off + result.run.len ≤ block_bytes result.block }
    {
        match self.mappings.find(mapping) {
            Some(live) => live,
            None => unreachable!(),
        }
    }

    /// Makes room for one more mapping. `AllocError` is out of memory. Whatever the answer, nothing but room changes.
    pub fn reserve_mapping(&mut self) -> Result<(), AllocError>
        ensures ok { OnOk result (0 < self.new.kept.room) }
        ensures same { LeavesAll self.old self.new }
    {
        self.mappings.reserve()
    }

    /// Has one more mapping: of the bytes of a block from `off` on, to slots that a look found. It needs room for one, and
    /// can't fail.
    pub fn mapped(
        &mut self,
        mapping: Name,
        name: &Name,
        off: u64,
        direction: Direction,
        run: SlotRun,
    )
        requires room { 0 < self.old.kept.room }
        requires within { EndsWithin (own_in self.old) name.now off run.len }
        ensures { (area : ℕ) → Leaves self.old self.new
            (after_map mapping name.now off direction (Looked area (Some run)) (own_in self.old)) }
    {
        let live = live_at(self.named(name), off, run, direction);
        self.mappings.insert(mapping, live);
    }

    /// The bytes of the block that a mapping stands for, from its byte `off` on. `AllocError` is out of memory.
    pub fn mapped_bytes(
        &self,
        alloc: Global,
        mapping: &Name,
        off: u64,
        len: u64,
    ) -> Result<Bytes, AllocError>
        requires { IsPart (own_in self.now) mapping.now off len }
        ensures bytes { IfOk result (λ bytes. ForSome (mapping_named (own_in self.now) mapping.now)
            (λ m. bytes ≡ block_bytes_of (own_in self.now) m off len)) }
        ensures count { IfOk result (λ bytes. length bytes ≡ len) }
    {
        let live = self.live(mapping);
        self.blocks
            .read_in(alloc, live.block, u64::from(live.off) + off, len)
    }

    /// Makes room for bytes that are copied out of a mapping into its block. `AllocError` is out of memory. Whatever the answer,
    /// nothing but room changes.
    pub fn reserve_copy(&mut self, mapping: &Name) -> Result<(), AllocError>
        requires { IsSome (mapping_named (own_in self.old) mapping.now) }
        ensures ok { OnOk result (ForSome (mapping_named (own_in self.old) mapping.now) (λ m.
            0 < write_room self.new.held m.block)) }
        ensures same { LeavesAll self.old self.new }
    {
        let live = self.live(mapping);
        self.blocks.reserve_write(live.block)
    }

    /// The bytes that were copied out of a mapping, from its byte `off` on, stand in its block then. It needs room for them, and
    /// can't fail.
    pub fn copied_out(&mut self, mapping: &Name, off: u64, bytes: Bytes)
        requires within { IsPart (own_in self.old) mapping.now off (length bytes) }
        requires room { ForSome (mapping_named (own_in self.old) mapping.now) (λ m.
            0 < write_room self.old.held m.block) }
        ensures { Leaves self.old self.new (copied_out mapping.now off bytes (own_in self.old)) }
    {
        let live = self.live(mapping);
        self.blocks
            .write_in(live.block, u64::from(live.off) + off, bytes);
    }

    /// No longer has the mapping of a name. Where no mapping has it nothing changes.
    pub fn unmapped(&mut self, mapping: &Name)
        ensures { Leaves self.old self.new (without_mapping mapping.now (own_in self.old)) }
    {
        self.mappings.remove(mapping);
    }
}
