ghost use Rattle.std.specs.Prelude.{◌≡◌, ◌≤◌, ℕ, length, IfOk};
ghost use Rattle.block_allocator.specs.State.{is_free, waits};

use crate::Blocks;
use guest_base::Block;
use std::alloc::{AllocError, Global};
use std::test::Fail;

#[test]
fn splits_and_merges(rt: HostRuntime) -> Result<(), Fail> {
    let mut blocks = Blocks::new(rt.alloc());
    blocks.reserve(rt.alloc(), 12)?;
    blocks.free(Block {
        first: 1024,
        order: 10,
    });
    take_and_free(&mut blocks);
    blocks.reserve(rt.alloc(), 11)?;
    let page = blocks.take(0).ok_or("no page")?;
    assert_eq!(rt; page.first, 1024);
    blocks.reserve(rt.alloc(), 11)?;
    blocks.free(page);
    assert_eq!(rt; blocks.take(10).ok_or("no block")?.first, 1024);
    assert!(rt; blocks.take_unaccepted().is_none());
    Ok(())
}

#[test]
fn waits_in_order(rt: HostRuntime) -> Result<(), Fail> {
    let mut blocks = Blocks::new(rt.alloc());
    blocks.reserve(rt.alloc(), 12)?;
    blocks.put_unaccepted(Block {
        first: 2048,
        order: 10,
    });
    blocks.put_unaccepted(Block {
        first: 0,
        order: 10,
    });
    assert!(rt; blocks.peek_unaccepted().is_some());
    let lowest = blocks.take_unaccepted().ok_or("none waits")?;
    assert_eq!(rt; lowest.first, 0);
    blocks.put_accepted(Block {
        first: 0,
        order: 10,
    });
    assert_eq!(rt; blocks.take_unaccepted().ok_or("none waits")?.first, 2048);
    Ok(())
}

/// Takes a page and frees it again: what `take` says is what `free` asks for, whatever is free or waits.
fn take_and_free(blocks: &mut Blocks)
    requires { 11 ≤ blocks.old.room }
    ensures free { (page : ℕ) → is_free blocks.new page ≡ is_free blocks.old page }
    ensures waiting { (first : ℕ) → waits blocks.new first ≡ waits blocks.old first }
{
    if let Some(page) = blocks.take(0) {
        blocks.free(page);
    }
}

/// Whether these pages are free, by a look at each.
fn is_whole(free: &[bool], first: usize, size: usize) -> bool {
    free.iter()
        .skip(first)
        .take(size)
        .filter(|page| **page)
        .count()
        == size
}

/// The lowest free block of an order, by a look at each place.
fn lowest_of(free: &[bool], size: usize) -> Option<usize> {
    for first in 0..8usize {
        if first.checked_rem(size) == Some(0)
            && is_whole(free, first, size)
            && !is_whole(free, first & !size, size.saturating_mul(2))
        {
            return Some(first);
        }
    }
    None
}

/// What `take` answers on eight pages, by a look at each order.
fn slow_take(free: &[bool], order: u32) -> Option<Block> {
    for (larger, size) in [(0u32, 1usize), (1, 2), (2, 4), (3, 8)] {
        if larger >= order {
            if let Some(first) = lowest_of(free, size) {
                return Some(Block {
                    first: first as u64,
                    order,
                });
            }
        }
    }
    None
}

/// The blocks of these free pages, each freed by itself.
fn filled(alloc: Global, free: &[bool]) -> Result<Blocks, AllocError>
    requires { length free.now ≤ 8 }
    ensures { IfOk result (λ blocks. 10 ≤ blocks.room) }
{
    let mut blocks = Blocks::new(alloc);
    blocks.reserve(alloc, 18)?;
    for (page, is_free) in free.iter().enumerate() {
        if *is_free {
            blocks.free(Block {
                first: page as u64,
                order: 0,
            });
        }
    }
    Ok(blocks)
}

/// The next set of pages, as the next binary number.
fn step(free: &mut [bool; 8]) {
    for page in free.iter_mut() {
        *page = !*page;
        if *page {
            return;
        }
    }
}

#[test]
fn takes_as_a_scan_does(rt: HostRuntime) -> Result<(), Fail> {
    let mut free = [false; 8];
    for _ in 0..256 {
        for order in 0..4 {
            let mut blocks = filled(rt.alloc(), &free)?;
            assert_eq!(rt; blocks.take(order), slow_take(&free, order));
        }
        step(&mut free);
    }
    Ok(())
}
