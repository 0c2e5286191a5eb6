//! Lists of blocks that rise by order, then by address.
ghost use Rattle.std.specs.Prelude.{◌≡◌, ℕ, ◌+◌, ◌<◌, ◌≤◌, ◌==◌, ◌||◌, Bool, false, true, length, slice_index_or, vec_len, vec_capacity, insert, IsTrue, MatchBool};
ghost use Rattle.std.specs.List.{list_any};
ghost use Rattle.block_allocator.specs.declared.buddy_block.BuddyBlock.{BuddyBlock};
ghost use Rattle.block_allocator.specs.Kept.{rank, Rises, is_numbered};

use crate::buddy_block::{BuddyBlock, is_before};

/// The number of blocks that stand before a block, which is the place where it stands or would stand.
pub fn place_of(list: &[BuddyBlock], block: BuddyBlock) -> usize
    requires { Rises list.now }
    ensures within { result ≤ length list.now }
    ensures before { (k : ℕ) (d : BuddyBlock) → k < result
        → rank (slice_index_or list.now k d) < rank block }
    ensures after { (k : ℕ) (d : BuddyBlock) → result ≤ k → k < length list.now
        → rank block ≤ rank (slice_index_or list.now k d) }
{
    list.partition_point(|kept| is_before(*kept, block))
}

/// Puts a block into a list that has room and no block of its rank.
pub fn put(list: &mut Vec<BuddyBlock>, block: BuddyBlock)
    requires rises { Rises list.old.items }
    requires absent { list_any (λ kept. rank kept == rank block) list.old.items ≡ false }
    requires room { vec_len list.old < vec_capacity list.old }
    ensures rises { Rises list.new.items }
    ensures added { (test : BuddyBlock → Bool) → list_any test list.new.items
        ≡ (list_any test list.old.items || test block) }
    ensures len { vec_len list.new ≡ vec_len list.old + 1 }
    ensures capacity { vec_capacity list.old ≤ vec_capacity list.new }
{
    let place = place_of(list.as_slice(), block);
    insert_within(list, place, block);
}

/// Inserts a block at a place of a list that has room.
fn insert_within(list: &mut Vec<BuddyBlock>, place: usize, block: BuddyBlock)
    requires place { place ≤ vec_len list.old }
    requires room { vec_len list.old < vec_capacity list.old }
    ensures items { list.new.items ≡ insert list.old.items place block }
    ensures len { vec_len list.new ≡ vec_len list.old + 1 }
    ensures capacity { vec_capacity list.old ≤ vec_capacity list.new }
{
    let _ = list.insert(place, block);
}

/// Takes out a block, if the list has it, and tells whether it has.
pub fn take_out(list: &mut Vec<BuddyBlock>, block: BuddyBlock) -> bool
    requires { Rises list.old.items }
    ensures rises { Rises list.new.items }
    ensures found { result ≡ list_any (is_numbered block.order block.number) list.old.items }
    ensures removed { MatchBool result
        ((test : BuddyBlock → Bool) → list_any test list.old.items
        ≡ (list_any test list.new.items || test block))
        (list.new.items ≡ list.old.items) }
    ensures gone { list_any (is_numbered block.order block.number) list.new.items ≡ false }
    ensures len { MatchBool result
        (vec_len list.new + 1 ≡ vec_len list.old)
        (vec_len list.new ≡ vec_len list.old) }
    ensures capacity { vec_capacity list.new ≡ vec_capacity list.old }
{
    let place = place_of(list.as_slice(), block);
    if place == list.len() || list[place] != block {
        return false;
    }
    take_at(list, place);
    true
}

/// Takes out the block at a place.
pub fn take_at(list: &mut Vec<BuddyBlock>, place: usize) -> BuddyBlock
    requires rises { Rises list.old.items }
    requires place { place < vec_len list.old }
    ensures block { result ≡ slice_index_or list.old.items place result }
    ensures rises { Rises list.new.items }
    ensures removed { (test : BuddyBlock → Bool) → list_any test list.old.items
        ≡ (list_any test list.new.items || test result) }
    ensures gone { list_any (is_numbered result.order result.number) list.new.items ≡ false }
    ensures len { vec_len list.new + 1 ≡ vec_len list.old }
    ensures capacity { vec_capacity list.new ≡ vec_capacity list.old }
{
    list.remove(place)
}
