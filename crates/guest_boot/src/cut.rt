//! The cut of RAM into blocks, after the page allocator.
ghost use Rattle.std.specs.Prelude.{◌≡◌, ◌++◌, ◌+◌, ◌^◌, ◌<◌, ◌≤◌, Some, IfOk, IfSome, OnOk, All};
ghost use Rattle.guest_base.specs.declared.limits.TheConstants.{PAGE_END};
ghost use Rattle.std.specs.List.{flat_map};
ghost use Rattle.guest_base.specs.declared.memory.Block.{Block as BlockValue};
ghost use Rattle.event_core.specs.Cut.{pages_end, joined, ram_ranges, pages_between, without_pool, may_stand, order_at, blocks_of};
ghost use Rattle.event_core.specs.Runs.{run_end};

use guest_base::limits::MAX_ORDER;
use guest_base::{Block, PageRun, Pages};
use std::alloc::{AllocError, Global};

/// The maximal ranges of pages of these runs, whatever their states, rising as the runs do. It fails only where memory runs out.
pub fn ranges(alloc: Global, runs: &[PageRun]) -> Result<Vec<Pages>, AllocError>
    requires { All (λ run. run_end run ≤ PAGE_END) runs.now }
    ensures { IfOk result (λ ranges. ranges.items ≡ ram_ranges runs.now) }
{
    match runs {
        [] => Ok(Vec::new(alloc)),
        [first, others @ ..] => ranges_from(alloc, first.pages, others),
    }
}

/// The maximal ranges of pages of a range and the runs behind it.
fn ranges_from(alloc: Global, first: Pages, others: &[PageRun]) -> Result<Vec<Pages>, AllocError>
    requires first { pages_end first ≤ PAGE_END }
    requires others { All (λ run. run_end run ≤ PAGE_END) others.now }
    ensures { IfOk result (λ ranges. ranges.items ≡ joined first (ram_ranges others.now)) }
{
    let mut ranges = Vec::new(alloc);
    let mut last = first;
    for next in others {
        if last.first + last.count == next.pages.first {
            last.count += next.pages.count;
        } else {
            ranges.push(last)?;
            last = next.pages;
        }
    }
    ranges.push(last)?;
    Ok(ranges)
}

/// The blocks into which the ranges of RAM are cut, but for the pool, rising: of each range that is left, at each place the block of
/// the greatest order up to 10 that may stand there. The ranges rise; it fails only where memory runs out.
pub fn cut_blocks(
    alloc: Global,
    ranges: &[Pages],
    pool: Option<Pages>,
) -> Result<Vec<Block>, AllocError>
    requires low { All (λ range. pages_end range ≤ PAGE_END) ranges.now }
    requires pool { IfSome pool (λ pool. pages_end pool ≤ PAGE_END) }
    ensures blocks { IfOk result (λ blocks.
        blocks.items ≡ flat_map blocks_of (flat_map (without_pool pool) ranges.now)) }
    ensures orders { IfOk result (λ blocks. All (λ (b : BlockValue). b.order ≤ 10) blocks.items) }
    ensures ends { IfOk result (λ blocks.
        All (λ (b : BlockValue). b.first + 2 ^ b.order ≤ PAGE_END) blocks.items) }
{
    let mut blocks = Vec::new(alloc);
    for range in &outside(alloc, ranges, pool)? {
        push_blocks(&mut blocks, *range)?;
    }
    Ok(blocks)
}

/// What is left of the ranges without the pool.
fn outside(alloc: Global, ranges: &[Pages], pool: Option<Pages>) -> Result<Vec<Pages>, AllocError>
    requires low { All (λ range. pages_end range ≤ PAGE_END) ranges.now }
    requires pool { IfSome pool (λ pool. pages_end pool ≤ PAGE_END) }
    ensures { IfOk result (λ left. left.items ≡ flat_map (without_pool pool) ranges.now) }
{
    let mut left = Vec::new(alloc);
    for range in ranges {
        push_outside(&mut left, *range, pool)?;
    }
    Ok(left)
}

/// Adds what is left of a range without the pool at the end.
fn push_outside(left: &mut Vec<Pages>, range: Pages, pool: Option<Pages>) -> Result<(), AllocError>
    requires low { pages_end range ≤ PAGE_END }
    requires pool { IfSome pool (λ pool. pages_end pool ≤ PAGE_END) }
    ensures { OnOk result (left.new.items ≡ left.old.items ++ without_pool pool range) }
{
    match pool {
        Some(pool) => push_around(left, range, pool),
        None => {
            left.push(range)?;
            Ok(())
        }
    }
}

/// Adds what is left of a range without these pages at the end.
fn push_around(left: &mut Vec<Pages>, range: Pages, pool: Pages) -> Result<(), AllocError>
    requires low { pages_end range ≤ PAGE_END }
    requires pool { pages_end pool ≤ PAGE_END }
    ensures { OnOk result (left.new.items ≡ left.old.items ++ without_pool (Some pool) range) }
{
    let end = range.first + range.count;
    let pool_end = pool.first + pool.count;
    if range.first <= pool.first && pool_end <= end {
        push_between(left, range.first, pool.first)?;
        push_between(left, pool_end, end)
    } else {
        left.push(range)?;
        Ok(())
    }
}

/// Adds the pages from one up to another at the end, where there are any.
fn push_between(left: &mut Vec<Pages>, from: u64, to: u64) -> Result<(), AllocError>
    ensures { OnOk result (left.new.items ≡ left.old.items ++ pages_between from to) }
{
    if from < to {
        left.push(Pages {
            first: from,
            count: to - from,
        })?;
    }
    Ok(())
}

/// Adds the blocks of a range at the end.
fn push_blocks(blocks: &mut Vec<Block>, range: Pages) -> Result<(), AllocError>
    requires { pages_end range ≤ PAGE_END }
    ensures { OnOk result (blocks.new.items ≡ blocks.old.items ++ blocks_of range) }
{
    let mut first = range.first;
    let mut left = range.count;
    while left > 0 {
        let order = order_at(first, left);
        blocks.push(Block { first, order })?;
        first += block_pages(order);
        left -= block_pages(order);
    }
    Ok(())
}

/// The greatest order up to 10 of a block that may stand at a page, with `left` pages from there on.
fn order_at(first: u64, left: u64) -> u32
    requires { 0 < left }
    ensures order { result ≡ order_at first left 10 }
    ensures most { result ≤ 10 }
    ensures fits { 2 ^ result ≤ left }
{
    let mut order = MAX_ORDER;
    while order > 0 && !may_stand(first, left, order) {
        order -= 1;
    }
    order
}

/// Whether a block of the order may stand at a page, with `left` pages from there on.
fn may_stand(first: u64, left: u64, order: u32) -> bool
    requires { order ≤ 10 }
    ensures { result ≡ may_stand first left order }
{
    first % block_pages(order) == 0 && block_pages(order) <= left
}

/// The pages of a block of the order.
fn block_pages(order: u32) -> u64
    requires { order ≤ 10 }
    ensures { result ≡ 2 ^ order }
{
    1 << order
}
