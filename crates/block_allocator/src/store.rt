//! The free blocks and the waiting blocks.
ghost use Rattle.std.specs.Prelude.{◌≡◌, ℕ, ◌+◌, ◌^◌, ◌≤◌, ◌==◌, ◌&&◌, ◌||◌, not, false, IfSome, IfNone, OnOk};
ghost use Rattle.guest_base.specs.Ranges.{in_range};
ghost use Rattle.guest_base.specs.Blocks.{pick};
ghost use Rattle.block_allocator.specs.State.{is_free, waits, Apart, IsBlock, IsLowestWaiting, Takes, MayPut};

use crate::allocator::{free_block, take_block};
use crate::buddy_block::{BuddyBlock, block_of, numbered};
use crate::sorted::{put, take_at};
use guest_base::Block;
use std::alloc::{AllocError, Global};
use std::marker::Model;

/// The free blocks of a guest, and the blocks of 1,024 pages that wait for their acceptance. No page is both.
///
/// The free blocks are at each moment the maximal aligned blocks, of order at most 10, made of free
/// pages: what is freed merges, and what is taken splits (after the page allocator's buddies).
///
/// Its room is the number of blocks that can be put among the free ones, and as well among the waiting ones, with no
/// further memory.
#[derive(Debug, Drop)]
pub struct Blocks {
    free: Vec<BuddyBlock>,
    waiting: Vec<BuddyBlock>,
}

impl Model for Blocks {
    ghost use Rattle.std.specs.Prelude.{◌-◌, min, vec_len, vec_capacity};
    ghost use Rattle.block_allocator.specs.State.{State, IsSound};

    ghost Value = { State };

    ghost view = { λ a. record {
      free = a.free.items;
      waiting = a.waiting.items;
      room = min (vec_capacity a.free - vec_len a.free)
          (vec_capacity a.waiting - vec_len a.waiting);
    } };

    ghost invariant = { λ a. IsSound a.free.items a.waiting.items };
}

impl Blocks {
    /// No free block and no waiting one.
    pub fn new(alloc: Global) -> Blocks
        ensures free { (page : ℕ) → is_free result page ≡ false }
        ensures waiting { (first : ℕ) → waits result first ≡ false }
    {
        Blocks {
            free: Vec::new(alloc),
            waiting: Vec::new(alloc),
        }
    }

    /// Makes room for this many more blocks, free and waiting ones alike. `AllocError` is out of
    /// memory. Whatever the answer, nothing changes but the room, which may have grown.
    pub fn reserve(&mut self, _alloc: Global, blocks: u64) -> Result<(), AllocError>
        ensures ok { OnOk result (blocks ≤ self.new.room) }
        ensures free { (page : ℕ) → is_free self.new page ≡ is_free self.old page }
        ensures waiting { (first : ℕ) → waits self.new first ≡ waits self.old first }
        ensures room { self.old.room ≤ self.new.room }
    {
        self.free.reserve(blocks as usize)?;
        self.waiting.reserve(blocks as usize)
    }

    /// Takes a block of 2^`order` pages, `order` being at most 10: the lowest part of the lowest free
    /// block of the least order that suffices (own rule, after the page allocator). None exactly where
    /// no free block of this order or above stands, and then nothing changes, the room neither. It needs
    /// room for ten blocks, the parts that are left of the block found.
    #[tactic(auto, using(crate::proofs::Waiting::apart_of))]
    pub fn take(&mut self, order: u32) -> Option<Block>
        requires order { order ≤ 10 }
        requires room { 10 ≤ self.old.room }
        ensures picked { result ≡ pick (is_free self.old) order }
        ensures block { IfSome result (IsBlock order) }
        ensures pages { IfSome result (λ block.
            Takes order block (is_free self.old) (is_free self.new)) }
        ensures none { IfNone result (self.new ≡ self.old) }
        ensures waiting { (first : ℕ) → waits self.new first ≡ waits self.old first }
        ensures apart { Apart self.old }
        ensures room { self.old.room ≤ self.new.room + 10 }
    {
        take_block(&mut self.free, order)
    }

    /// Frees a block of at most 1,024 pages, aligned to its size and below page 2^28, whose pages are
    /// neither free nor waiting. It merges with the free blocks. It needs room for one block.
    pub fn free(&mut self, block: Block)
        requires may { MayPut self.old block }
        requires room { 1 ≤ self.old.room }
        ensures pages { (page : ℕ) → is_free self.new page
            ≡ (is_free self.old page || in_range block.first (2 ^ block.order) page) }
        ensures waiting { (first : ℕ) → waits self.new first ≡ waits self.old first }
        ensures room { self.old.room ≤ self.new.room + 1 }
    {
        free_block(&mut self.free, numbered(block));
    }

    /// The waiting block with the lowest address. None exactly where none waits.
    #[tactic(auto, using(crate::proofs::Waiting::apart_of))]
    pub fn peek_unaccepted(&self) -> Option<Block>
        ensures block { IfSome result (IsBlock 10) }
        ensures lowest { IfSome result (IsLowestWaiting self.now) }
        ensures none { IfNone result ((first : ℕ) → waits self.now first ≡ false) }
        ensures apart { Apart self.now }
    {
        let lowest = *self.waiting.first()?;
        Some(block_of(lowest))
    }

    /// Takes the waiting block with the lowest address, which waits no longer. None exactly where
    /// none waits, and then nothing changes, the room neither.
    #[tactic(auto, using(crate::proofs::Waiting::apart_of))]
    pub fn take_unaccepted(&mut self) -> Option<Block>
        ensures block { IfSome result (IsBlock 10) }
        ensures lowest { IfSome result (IsLowestWaiting self.old) }
        ensures others { IfSome result (λ block. (first : ℕ)
            → waits self.new first ≡ (waits self.old first && not (block.first == first))) }
        ensures none { IfNone result ((first : ℕ) → waits self.old first ≡ false) }
        ensures unchanged { IfNone result (self.new ≡ self.old) }
        ensures free { (page : ℕ) → is_free self.new page ≡ is_free self.old page }
        ensures apart { Apart self.old }
        ensures room { self.old.room ≤ self.new.room }
    {
        if self.waiting.is_empty() {
            return None;
        }
        Some(block_of(take_at(&mut self.waiting, 0)))
    }

    /// Puts a block of 1,024 pages among the waiting ones, under the conditions of `free`.
    pub fn put_unaccepted(&mut self, block: Block)
        requires order { block.order ≡ 10 }
        requires may { MayPut self.old block }
        requires room { 1 ≤ self.old.room }
        ensures waiting { (first : ℕ) → waits self.new first
            ≡ (waits self.old first || block.first == first) }
        ensures free { (page : ℕ) → is_free self.new page ≡ is_free self.old page }
        ensures room { self.old.room ≤ self.new.room + 1 }
    {
        put(&mut self.waiting, numbered(block));
    }

    /// Frees a block that waited and was accepted, as `free` does.
    pub fn put_accepted(&mut self, block: Block)
        requires may { MayPut self.old block }
        requires room { 1 ≤ self.old.room }
        ensures pages { (page : ℕ) → is_free self.new page
            ≡ (is_free self.old page || in_range block.first (2 ^ block.order) page) }
        ensures waiting { (first : ℕ) → waits self.new first ≡ waits self.old first }
        ensures room { self.old.room ≤ self.new.room + 1 }
    {
        self.free(block);
    }
}
