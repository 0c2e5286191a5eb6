//! A block by its number among the blocks of its order.
ghost use Rattle.std.specs.Prelude.{◌≡◌, ◌≢◌, ◌+◌, ◌-◌, ◌*◌, ◌/◌, ◌^◌, ◌<◌, ◌≤◌, nat_lt};
ghost use Rattle.block_allocator.specs.Kept.{rank};

use guest_base::Block;

/// The block of 2^`order` pages from the page `number` * 2^`order` on.
#[derive(Clone, Copy, Debug, PartialEq, Eq)]
pub struct BuddyBlock {
    pub order: u32,
    pub number: u64,
}

/// The block's number among the blocks of its order.
pub fn numbered(block: Block) -> BuddyBlock
    requires { block.order ≤ 10 }
    ensures { result ≡ record { order = block.order; number = block.first / 2 ^ block.order } }
{
    BuddyBlock {
        order: block.order,
        number: block.first / pages_of(block.order),
    }
}

/// The block from its first page on.
pub fn block_of(numbered: BuddyBlock) -> Block
    requires order { numbered.order ≤ 10 }
    requires end { (numbered.number + 1) * 2 ^ numbered.order ≤ 2 ^ 28 }
    ensures { result
        ≡ record { first = numbered.number * 2 ^ numbered.order; order = numbered.order } }
{
    Block {
        first: numbered.number * pages_of(numbered.order),
        order: numbered.order,
    }
}

/// The pages of a block.
fn pages_of(order: u32) -> u64
    requires { order ≤ 10 }
    ensures { result ≡ 2 ^ order }
{
    1 << order
}

/// Whether a block stands before another one: by order, then by address.
pub fn is_before(one: BuddyBlock, other: BuddyBlock) -> bool
    ensures { result ≡ nat_lt (rank one) (rank other) }
{
    one.order < other.order || (one.order == other.order && one.number < other.number)
}

/// The other half of the block of the next order.
pub fn buddy_of(block: BuddyBlock) -> BuddyBlock
    requires { block.number < 2 ^ 28 }
    ensures order { result.order ≡ block.order }
    ensures other { result.number ≢ block.number }
    ensures pair { result.number / 2 ≡ block.number / 2 }
{
    let number = if block.number % 2 == 0 {
        block.number + 1
    } else {
        block.number - 1
    };
    BuddyBlock {
        order: block.order,
        number,
    }
}

/// The block of the next order whose half the block is.
pub fn merged(half: BuddyBlock) -> BuddyBlock
    requires { half.order < 10 }
    ensures { result ≡ record { order = half.order + 1; number = half.number / 2 } }
{
    BuddyBlock {
        order: half.order + 1,
        number: half.number / 2,
    }
}

/// The lower half of a block.
pub fn lower_half(block: BuddyBlock) -> BuddyBlock
    requires order { 0 < block.order }
    requires number { block.number < 2 ^ 28 }
    ensures { result ≡ record { order = block.order - 1; number = 2 * block.number } }
{
    BuddyBlock {
        order: block.order - 1,
        number: 2 * block.number,
    }
}

/// The upper half of a block.
pub fn upper_half(block: BuddyBlock) -> BuddyBlock
    requires order { 0 < block.order }
    requires number { block.number < 2 ^ 28 }
    ensures { result ≡ record { order = block.order - 1; number = 2 * block.number + 1 } }
{
    BuddyBlock {
        order: block.order - 1,
        number: 2 * block.number + 1,
    }
}
