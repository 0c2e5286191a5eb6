//! A block that is held.
ghost use Rattle.std.specs.Prelude.{◌≡◌, ◌<◌, ◌≤◌, true, false, not, filter, position, IfOk};
ghost use Rattle.std.specs.Str.{bytes_eq};
ghost use Rattle.std.specs.VecDeque.{deque_capacity, deque_len};
ghost use Rattle.event_core.specs.Bytes.{row_of};
ghost use Rattle.event_core.specs.Holdings.{block_bytes, same_block};
ghost use Rattle.event_core.specs.OwnRows.{is_inside, strayed_bytes};
ghost use Rattle.held_blocks.specs.Held.{holding, IsInMemory};

use event_core::Name;
use guest_base::limits::PAGE_BYTES;
use guest_base::{Block, Bytes};
use sparse_bytes::SparseBytes;
use std::alloc::{AllocError, Global};
use std::collections::VecDeque;

/// A block with its name and its bytes.
#[derive(Debug, Drop)]
pub(crate) struct KeptBlock {
    pub(crate) name: Name,
    pub(crate) block: Block,
    pub(crate) bytes: SparseBytes,
}

/// The bytes of a load.
const LOAD_BYTES: u64 = 8;

/// The size of a block in bytes.
pub(crate) fn size_of(block: Block) -> u64
    requires { IsInMemory block }
    ensures { result ≡ block_bytes block }
{
    PAGE_BYTES << block.order
}

/// Whether a load ends in its block.
pub(crate) fn ends_inside(block: Block, off: u64) -> bool
    requires { IsInMemory block }
    ensures { result ≡ is_inside block off }
{
    let size = size_of(block);
    LOAD_BYTES <= size && off <= size - LOAD_BYTES
}

impl KeptBlock {
    /// The eight bytes of a load that ends in the block.
    fn load_inside(&self, alloc: Global, off: u64) -> Result<Bytes, AllocError>
        requires memory { IsInMemory self.now.block }
        requires inside { is_inside self.now.block off ≡ true }
        ensures { IfOk result (λ bytes. bytes ≡ row_of (holding self.now).bytes off 8) }
    {
        self.bytes.read(alloc, off, LOAD_BYTES)
    }

    /// The eight bytes of a load that ends past the block.
    fn load_strayed(&self, alloc: Global, off: u64) -> Result<Bytes, AllocError>
        requires memory { IsInMemory self.now.block }
        requires within { off < block_bytes self.now.block }
        requires outside { is_inside self.now.block off ≡ false }
        ensures { IfOk result (λ bytes. bytes ≡ strayed_bytes (holding self.now) off) }
    {
        let len = size_of(self.block) - off;
        let mut bytes = self.bytes.read(alloc, off, len)?.into_vec();
        bytes.resize(LOAD_BYTES as usize, 0)?;
        Ok(Bytes::from_vec(bytes))
    }

    /// The eight bytes of a load.
    pub(crate) fn load(&self, alloc: Global, off: u64) -> Result<Bytes, AllocError>
        requires memory { IsInMemory self.now.block }
        requires within { off < block_bytes self.now.block }
        ensures inside { IfOk result (λ bytes. is_inside self.now.block off ≡ true
            → bytes ≡ row_of (holding self.now).bytes off 8) }
        ensures strayed { IfOk result (λ bytes. is_inside self.now.block off ≡ false
            → bytes ≡ strayed_bytes (holding self.now) off) }
    {
        if ends_inside(self.block, off) {
            self.load_inside(alloc, off)
        } else {
            self.load_strayed(alloc, off)
        }
    }
}

/// The place of a name among the blocks.
pub(crate) fn place_of(kept: &VecDeque<KeptBlock>, name: &Name) -> Option<usize>
    ensures { result ≡ position (λ k. bytes_eq k.name name.now) kept.now.items }
{
    kept.iter().position(|k| k.name.is(name))
}

/// The place of a block among those that are kept.
pub(crate) fn place_in(kept: &VecDeque<KeptBlock>, block: Block) -> Option<usize>
    ensures { result ≡ position (λ k. same_block k.block block) kept.now.items }
{
    kept.iter().position(|k| is_same(k.block, block))
}

/// Whether two blocks are one.
fn is_same(one: Block, other: Block) -> bool
    ensures { result ≡ same_block one other }
{
    one.first == other.first && one.order == other.order
}

/// Drops the blocks of a name.
pub(crate) fn drop_named(kept: &mut VecDeque<KeptBlock>, name: &Name)
    ensures items { kept.new.items
        ≡ filter (λ k. not (bytes_eq k.name name.now)) kept.old.items }
    ensures len { deque_len kept.new ≤ deque_len kept.old }
    ensures capacity { deque_capacity kept.new ≡ deque_capacity kept.old }
{
    kept.retain(|k| !k.name.is(name));
}
