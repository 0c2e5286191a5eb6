//! The blocks that a processor holds.
ghost use Rattle.std.specs.Prelude.{◌≡◌, [], ◌∷◌, Some, true, false, ◌+◌, ◌<◌, ◌≤◌, length, IfOk, OnOk, OnErr};
ghost use Rattle.std.specs.Option.{ForSome, IsSome, option_map};
ghost use Rattle.std.specs.List.{repeat};
ghost use Rattle.event_core.specs.declared.event.Event.TheVariants.{Got};
ghost use Rattle.event_core.specs.Bytes.{row_of};
ghost use Rattle.event_core.specs.Holdings.{block_bytes, block_named};
ghost use Rattle.event_core.specs.Own.{after_alloc, with_bytes_at, without_block};
ghost use Rattle.event_core.specs.OwnRows.{is_inside, strayed_bytes};
ghost use Rattle.held_blocks.specs.Held.{blocks_of, bytes_held, holding, holding_in, owned, is_held, write_room, AreApart, EndsWithin, IsInMemory};

use crate::kept::{KeptBlock, drop_named, ends_inside, place_in, place_of};
use event_core::Name;
use guest_base::{Block, Bytes};
use sparse_bytes::SparseBytes;
use std::alloc::{AllocError, Global};
use std::collections::VecDeque;
use std::marker::Model;

/// The blocks that a processor holds, each private to the guest, by their names and with their bytes. No two of them are one
/// block, and each lies in memory.
#[derive(Debug, Drop)]
pub struct HeldBlocks {
    kept: VecDeque<KeptBlock>,
}

impl Model for HeldBlocks {
    ghost use Rattle.std.specs.Prelude.{◌-◌, map};
    ghost use Rattle.std.specs.VecDeque.{deque_capacity, deque_len};
    ghost use Rattle.held_blocks.specs.Held.{Held, holding, AreApart};

    ghost Value = { Held };

    ghost view = { λ b. record {
      kept = b.kept.items;
      room = deque_capacity b.kept - deque_len b.kept;
    } };

    ghost invariant = { λ b. AreApart (map holding b.kept.items) };
}

impl HeldBlocks {
    /// No block, and room for none.
    pub fn new(alloc: Global) -> HeldBlocks
        ensures { blocks_of result ≡ [] }
    {
        HeldBlocks {
            kept: VecDeque::new(alloc),
        }
    }

    /// Makes room for one more block. `AllocError` is out of memory. Whatever the answer, the blocks and their bytes stay,
    /// and the room doesn't shrink.
    pub fn reserve(&mut self) -> Result<(), AllocError>
        ensures ok { OnOk result (0 < self.new.room) }
        ensures same { blocks_of self.new ≡ blocks_of self.old }
        ensures room { self.old.room ≤ self.new.room }
        ensures kept { self.new.kept ≡ self.old.kept }
    {
        self.kept.reserve(1)
    }

    /// The block of a name. None exactly where no block that is held has it.
    pub fn block_of(&self, name: &Name) -> Option<Block>
        ensures block { result
            ≡ option_map (λ h. h.block) (block_named (owned self.now) name.now) }
        ensures memory { ForSome result IsInMemory }
        ensures apart { AreApart (blocks_of self.now) }
    {
        let at = place_of(&self.kept, name)?;
        Some(self.kept[at].block)
    }

    /// The block of a name, as it is kept.
    fn kept_of(&self, name: &Name) -> &KeptBlock
        requires { IsSome (block_named (owned self.now) name.now) }
        ensures holding { block_named (owned self.now) name.now ≡ Some (holding result.now) }
        ensures memory { IsInMemory result.now.block }
    {
        match place_of(&self.kept, name) {
            Some(at) => &self.kept[at],
            None => unreachable!(),
        }
    }

    /// Holds one more block, whose bytes are all zero. It needs room for one, and can't fail.
    pub fn got(&mut self, alloc: Global, name: Name, block: Block)
        requires room { 0 < self.old.room }
        requires memory { IsInMemory block }
        requires other { is_held block (blocks_of self.old) ≡ false }
        ensures held { owned self.new ≡ after_alloc name (Got block) (owned self.old) }
        ensures room { self.old.room ≤ self.new.room + 1 }
    {
        self.kept.push_front_reserved(KeptBlock {
            name,
            block,
            bytes: SparseBytes::new(alloc),
        });
    }

    /// No longer holds the block of a name, and forgets its bytes. Where no block has the name nothing changes.
    pub fn freed(&mut self, name: &Name)
        ensures held { owned self.new ≡ without_block name.now (owned self.old) }
        ensures room { self.old.room ≤ self.new.room }
    {
        drop_named(&mut self.kept, name);
    }

    /// The bytes of `len` places of a block from `off` on, in order. `AllocError` is out of memory.
    pub fn read(&self, alloc: Global, name: &Name, off: u64, len: u64) -> Result<Bytes, AllocError>
        requires { EndsWithin (owned self.now) name.now off len }
        ensures { IfOk result (λ bytes. ForSome (block_named (owned self.now) name.now) (λ h.
            bytes ≡ row_of h.bytes off len)) }
    {
        self.kept_of(name).bytes.read(alloc, off, len)
    }

    /// Whether a load of eight bytes from `off` on ends in its block.
    pub fn is_inside(&self, name: &Name, off: u64) -> bool
        requires { IsSome (block_named (owned self.now) name.now) }
        ensures { ForSome (block_named (owned self.now) name.now) (λ h.
            result ≡ is_inside h.block off) }
    {
        ends_inside(self.kept_of(name).block, off)
    }

    /// The eight bytes of a load from `off` on, a byte of the block: those past its end are zero. `AllocError` is out of memory.
    pub fn load(&self, alloc: Global, name: &Name, off: u64) -> Result<Bytes, AllocError>
        requires { EndsWithin (owned self.now) name.now off 1 }
        ensures { IfOk result (λ bytes. ForSome (block_named (owned self.now) name.now) (λ h.
            (is_inside h.block off ≡ true → bytes ≡ row_of h.bytes off 8)
            × (is_inside h.block off ≡ false → bytes ≡ strayed_bytes h off))) }
    {
        self.kept_of(name).load(alloc, off)
    }

    /// Writes bytes of a block from `off` on. `AllocError` is out of memory, and then every byte is as before.
    pub fn write(
        &mut self,
        alloc: Global,
        name: &Name,
        off: u64,
        bytes: &[u8],
    ) -> Result<(), AllocError>
        requires { EndsWithin (owned self.old) name.now off (length bytes.now) }
        ensures ok { OnOk result (ForSome (block_named (owned self.old) name.now) (λ h.
            owned self.new ≡ with_bytes_at h.block off bytes.now (owned self.old))) }
        ensures err { OnErr result (blocks_of self.new ≡ blocks_of self.old) }
        ensures room { self.old.room ≤ self.new.room }
    {
        match place_of(&self.kept, name) {
            Some(at) => self.kept[at].bytes.write(alloc, off, bytes),
            None => unreachable!(),
        }
    }

    /// Fills `len` bytes of a block from `off` on with a byte. `AllocError` is out of memory, and then every byte is as before.
    pub fn fill(&mut self, name: &Name, off: u64, len: u64, byte: u8) -> Result<(), AllocError>
        requires { EndsWithin (owned self.old) name.now off len }
        ensures ok { OnOk result (ForSome (block_named (owned self.old) name.now) (λ h.
            owned self.new ≡ with_bytes_at h.block off (repeat len (byte ∷ [])) (owned self.old))) }
        ensures err { OnErr result (blocks_of self.new ≡ blocks_of self.old) }
        ensures room { self.old.room ≤ self.new.room }
    {
        match place_of(&self.kept, name) {
            Some(at) => self.kept[at].bytes.fill(off, len, byte),
            None => unreachable!(),
        }
    }

    /// A block that is held, as it is kept.
    fn kept_in(&self, block: Block) -> &KeptBlock
        requires { is_held block (blocks_of self.now) ≡ true }
        ensures holding { holding_in (blocks_of self.now) block ≡ Some (holding result.now) }
        ensures same { result.now.block ≡ block }
        ensures memory { IsInMemory block }
    {
        match place_in(&self.kept, block) {
            Some(at) => &self.kept[at],
            None => unreachable!(),
        }
    }

    /// The bytes of `len` places of a block that is held from `off` on, in order. `AllocError` is out of memory.
    pub(crate) fn read_in(
        &self,
        alloc: Global,
        block: Block,
        off: u64,
        len: u64,
    ) -> Result<Bytes, AllocError>
        requires held { is_held block (blocks_of self.now) ≡ true }
        requires within { off + len ≤ block_bytes block }
        ensures bytes { IfOk result (λ bytes.
            bytes ≡ bytes_held (blocks_of self.now) block off len) }
        ensures count { IfOk result (λ bytes. length bytes ≡ len) }
    {
        self.kept_in(block).bytes.read(alloc, off, len)
    }

    /// Makes room for one write to a block that is held. `AllocError` is out of memory. Whatever the answer, the blocks and
    /// their bytes stay.
    pub(crate) fn reserve_write(&mut self, block: Block) -> Result<(), AllocError>
        requires { is_held block (blocks_of self.old) ≡ true }
        ensures ok { OnOk result (0 < write_room self.new block) }
        ensures same { blocks_of self.new ≡ blocks_of self.old }
        ensures room { self.old.room ≤ self.new.room }
    {
        match place_in(&self.kept, block) {
            Some(at) => self.kept[at].bytes.reserve(1),
            None => unreachable!(),
        }
    }

    /// Writes bytes of a block that is held from `off` on, and keeps them. It needs room for one write, and can't fail.
    pub(crate) fn write_in(&mut self, block: Block, off: u64, bytes: Bytes)
        requires held { is_held block (blocks_of self.old) ≡ true }
        requires write_room { 0 < write_room self.old block }
        ensures held { owned self.new ≡ with_bytes_at block off bytes (owned self.old) }
        ensures room { self.old.room ≤ self.new.room }
    {
        match place_in(&self.kept, block) {
            Some(at) => self.kept[at].bytes.write_reserved(off, bytes),
            None => unreachable!(),
        }
    }
}
