//! The blocks that are free or wait while a guest boots.
ghost use Rattle.std.specs.Prelude.{◌≡◌, ℕ, ◌+◌, ◌≤◌, ◌==◌, ◌&&◌, ◌||◌, [], true, not, IfOk};
ghost use Rattle.event_core.specs.Absent.{in_block};
ghost use Rattle.block_allocator.specs.State.{MayPut, is_free, waits};
ghost use Rattle.guest_boot.specs.Putting.{HasPut};

use block_allocator::Blocks;
use guest_base::Block;
use std::alloc::{AllocError, Global};

/// A store without a block, with room for this many.
pub(crate) fn with_room(alloc: Global, blocks: usize) -> Result<Blocks, AllocError>
    ensures empty { IfOk result (HasPut []) }
    ensures room { IfOk result (λ store. blocks ≤ store.room) }
{
    let mut store = Blocks::new(alloc);
    store.reserve(alloc, blocks as u64)?;
    Ok(store)
}

/// Puts a block among the waiting ones where it waits, and else among the free ones.
pub(crate) fn put_block(store: &mut Blocks, block: Block, is_waiting: bool)
    requires may { MayPut store.old block }
    requires order { is_waiting ≡ true → block.order ≡ 10 }
    requires room { 1 ≤ store.old.room }
    ensures free { (page : ℕ) → is_free store.new page
        ≡ (is_free store.old page || (not is_waiting && in_block page block)) }
    ensures waiting { (first : ℕ) → waits store.new first
        ≡ (waits store.old first || (is_waiting && block.first == first)) }
    ensures room { store.old.room ≤ store.new.room + 1 }
{
    if is_waiting {
        store.put_unaccepted(block);
    } else {
        store.put_accepted(block);
    }
}
