//! Splitting and merging of free blocks.
ghost use Rattle.std.specs.Prelude.{◌≡◌, ◌≢◌, ℕ, ◌+◌, ◌-◌, ◌*◌, ◌/◌, ◌^◌, ◌<◌, ◌≤◌, ◌||◌, false, vec_len, vec_capacity, IfSome, IfNone};
ghost use Rattle.guest_base.specs.Blocks.{pick};
ghost use Rattle.block_allocator.specs.Kept.{Rises, Buddies, Beside, kept, covers, holds_page};
ghost use Rattle.block_allocator.specs.State.{IsBlock, Takes};

use crate::buddy_block::{BuddyBlock, block_of, buddy_of, lower_half, merged, upper_half};
use crate::sorted::{place_of, put, take_at, take_out};
use guest_base::Block;
use guest_base::limits::MAX_ORDER;

/// Takes the lowest part, of the asked order, of the lowest free block of the least sufficient order.
pub fn take_block(free: &mut Vec<BuddyBlock>, order: u32) -> Option<Block>
    requires order { order ≤ 10 }
    requires rises { Rises free.old.items }
    requires buddies { Buddies (kept free.old.items) }
    requires room { vec_len free.old + 10 ≤ vec_capacity free.old }
    ensures rises { Rises free.new.items }
    ensures buddies { Buddies (kept free.new.items) }
    ensures picked { result ≡ pick (covers free.old.items) order }
    ensures block { IfSome result (IsBlock order) }
    ensures pages { IfSome result (λ block.
        Takes order block (covers free.old.items) (covers free.new.items)) }
    ensures none { IfNone result (free.new ≡ free.old) }
    ensures room { vec_len free.new + vec_capacity free.old
        ≤ vec_len free.old + vec_capacity free.new + 10 }
{
    let place = place_of(free.as_slice(), BuddyBlock { order, number: 0 });
    if place == free.len() {
        return None;
    }
    let found = take_at(free, place);
    let part = split_down(free, found, order);
    Some(block_of(part))
}

/// Splits a block until its lowest part has the asked order; the other parts are free.
fn split_down(free: &mut Vec<BuddyBlock>, block: BuddyBlock, order: u32) -> BuddyBlock
    requires rises { Rises free.old.items }
    requires beside { Beside free.old.items block }
    requires order { order ≤ block.order }
    requires room { vec_len free.old + (block.order - order) ≤ vec_capacity free.old }
    ensures rises { Rises free.new.items }
    ensures beside { Beside free.new.items result }
    ensures order { result.order ≡ order }
    ensures lowest { result.number * 2 ^ result.order ≡ block.number * 2 ^ block.order }
    ensures pages { (page : ℕ) → (covers free.new.items page || holds_page page result)
        ≡ (covers free.old.items page || holds_page page block) }
    ensures len { vec_len free.new ≡ vec_len free.old + (block.order - order) }
    ensures capacity { vec_capacity free.old ≤ vec_capacity free.new }
{
    let mut part = block;
    while part.order > order {
        part = split(free, part);
    }
    part
}

/// Splits a block: its upper half is free, and its lower half is the answer.
fn split(free: &mut Vec<BuddyBlock>, block: BuddyBlock) -> BuddyBlock
    requires rises { Rises free.old.items }
    requires beside { Beside free.old.items block }
    requires order { 0 < block.order }
    requires room { vec_len free.old < vec_capacity free.old }
    ensures rises { Rises free.new.items }
    ensures beside { Beside free.new.items result }
    ensures half { result ≡ record { order = block.order - 1; number = 2 * block.number } }
    ensures pages { (page : ℕ) → (covers free.new.items page || holds_page page result)
        ≡ (covers free.old.items page || holds_page page block) }
    ensures len { vec_len free.new ≡ vec_len free.old + 1 }
    ensures capacity { vec_capacity free.old ≤ vec_capacity free.new }
{
    put(free, upper_half(block));
    lower_half(block)
}

/// Frees a block, merged with its buddy as long as that is free too.
pub fn free_block(free: &mut Vec<BuddyBlock>, block: BuddyBlock)
    requires rises { Rises free.old.items }
    requires beside { Beside free.old.items block }
    requires room { vec_len free.old < vec_capacity free.old }
    ensures rises { Rises free.new.items }
    ensures buddies { Buddies (kept free.new.items) }
    ensures pages { (page : ℕ) → covers free.new.items page
        ≡ (covers free.old.items page || holds_page page block) }
    ensures room { vec_len free.new + vec_capacity free.old
        ≤ vec_len free.old + vec_capacity free.new + 1 }
{
    let mut block = block;
    while let Some(larger) = merge(free, block) {
        block = larger;
    }
    put(free, block);
}

/// Merges a block with its buddy, which is taken out. None where the buddy isn't free or the order is 10.
fn merge(free: &mut Vec<BuddyBlock>, block: BuddyBlock) -> Option<BuddyBlock>
    requires rises { Rises free.old.items }
    requires beside { Beside free.old.items block }
    ensures rises { Rises free.new.items }
    ensures some { IfSome result (λ larger. Beside free.new.items larger
        × (larger.order ≡ block.order + 1)
        × ((page : ℕ) → (covers free.new.items page || holds_page page larger)
        ≡ (covers free.old.items page || holds_page page block))
        × (vec_len free.new + 1 ≡ vec_len free.old)) }
    ensures none { IfNone result ((free.new.items ≡ free.old.items)
        × ((n : ℕ) → block.order < 10 → n / 2 ≡ block.number / 2 → n ≢ block.number
        → kept free.old.items block.order n ≡ false)) }
    ensures len { vec_len free.new ≤ vec_len free.old }
    ensures capacity { vec_capacity free.new ≡ vec_capacity free.old }
{
    if block.order == MAX_ORDER || !take_out(free, buddy_of(block)) {
        return None;
    }
    Some(merged(block))
}
