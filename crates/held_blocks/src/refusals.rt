//! The refusals of commands.
ghost use Rattle.std.specs.Prelude.{◌≡◌, ◌+◌, ◌*◌, ◌==◌, ◌≤◌, ◌<◌, None, true, false, is_none, is_some, nat_le, nat_lt};
ghost use Rattle.std.specs.Option.{ForSome};
ghost use Rattle.std.specs.List.{list_any};
ghost use Rattle.guest_base.specs.Requests.{too_long};
ghost use Rattle.dma_map.specs.Pools.{HasPool, IsLayout};
ghost use Rattle.event_core.specs.declared.boot.Boot.{Boot};
ghost use Rattle.event_core.specs.declared.reply.Reply.TheVariants.{Mapped, NoPool, Range, Taken, Zero};
ghost use Rattle.event_core.specs.Holdings.{block_bytes, same_block};
ghost use Rattle.event_core.specs.Refusals.{memory_range_refusal, past_end, pool_refusal, refuse, unknown_or};
ghost use Rattle.held_blocks.specs.Held.{IsInMemory};

use crate::kept::size_of;
use dma_map::{Layout, Live, Mappings, TooLong, plan};
use event_core::Reply;
use guest_base::Block;
use guest_base::limits::{ADDRESS_END, PAGE_BYTES};

/// The refusal of a range of memory: it has no byte, or ends above 2^40.
pub(crate) fn refuse_range(start: u64, len: u64) -> Option<Reply>
    ensures { result ≡ memory_range_refusal start len }
{
    if len == 0 {
        return Some(Reply::Zero);
    }
    if u128::from(start) + u128::from(len) > u128::from(ADDRESS_END) {
        return Some(Reply::Range);
    }
    None
}

/// The refusal of a name that has a block.
pub(crate) fn refuse_taken(held: Option<Block>) -> Option<Reply>
    ensures { result ≡ refuse Taken (is_some held) None }
{
    match held {
        Some(_) => Some(Reply::Taken),
        None => None,
    }
}

/// Whether a range passes the end of what it lies in, of this many bytes.
fn passes(size: u64, off: u64, len: u64) -> bool
    ensures { result ≡ nat_lt size (off + len) }
{
    u128::from(off) + u128::from(len) > u128::from(size)
}

/// The refusal of bytes of a block: it isn't known, or they pass its end.
pub(crate) fn refuse_bytes(held: Option<Block>, off: u64, len: u64) -> Option<Reply>
    requires { ForSome held IsInMemory }
    ensures { result ≡ unknown_or held (λ block. past_end (block_bytes block) off len) }
{
    let Some(block) = held else {
        return Some(Reply::Unknown);
    };
    if passes(size_of(block), off, len) {
        return Some(Reply::Range);
    }
    None
}

/// The refusal of a range of bytes of a block: it isn't known, the range has no byte, or it passes the block's end.
pub(crate) fn refuse_span(held: Option<Block>, off: u64, len: u64) -> Option<Reply>
    requires { ForSome held IsInMemory }
    ensures { result ≡ unknown_or held (λ block. refuse Zero (len == 0)
        (past_end (block_bytes block) off len)) }
{
    if held.is_some() && len == 0 {
        return Some(Reply::Zero);
    }
    refuse_bytes(held, off, len)
}

/// The refusal of a load: its block isn't known, or its first byte doesn't lie in the block.
pub(crate) fn refuse_load(held: Option<Block>, off: u64) -> Option<Reply>
    requires { ForSome held IsInMemory }
    ensures { result ≡ unknown_or held (λ block.
        refuse Range (nat_le (block_bytes block) off) None) }
{
    let Some(block) = held else {
        return Some(Reply::Unknown);
    };
    if size_of(block) <= off {
        return Some(Reply::Range);
    }
    None
}

/// The refusal of freeing a block: it isn't known, or a live mapping is of it.
pub(crate) fn refuse_mapped(held: Option<Block>, mappings: &Mappings) -> Option<Reply>
    ensures { result ≡ unknown_or held (λ block. refuse Mapped
        (list_any (λ m. same_block m.block block) mappings.now.mappings) None) }
{
    let Some(block) = held else {
        return Some(Reply::Unknown);
    };
    if mappings.any_in(block) {
        return Some(Reply::Mapped);
    }
    None
}

/// Whether a mapping of bytes of a block fits in no empty segment.
fn is_too_long(block: Block, off: u64, len: u64, mask: u64) -> bool
    requires memory { IsInMemory block }
    requires some { 0 < len }
    requires within { off + len ≤ block_bytes block }
    ensures { result ≡ too_long (PAGE_BYTES * block.first + off) len mask }
{
    match plan(PAGE_BYTES * block.first + off, len, mask) {
        Ok(_) => false,
        Err(TooLong) => true,
    }
}

/// The refusal of a mapping of bytes of a private block: it isn't known, there is no byte, they pass its end, they fit in no
/// empty segment, or there is no pool.
pub(crate) fn refuse_map(
    held: Option<Block>,
    off: u64,
    len: u64,
    mask: u64,
    layout: Option<Layout>,
) -> Option<Reply>
    requires { ForSome held IsInMemory }
    ensures { result ≡ unknown_or held (λ block. refuse Zero (len == 0)
        (refuse Range (nat_lt (block_bytes block) (off + len))
        (refuse Reply.TooLong (too_long (PAGE_BYTES * block.first + off) len mask)
        (refuse NoPool (is_none layout) None)))) }
{
    let Some(block) = held else {
        return Some(Reply::Unknown);
    };
    if len == 0 {
        return Some(Reply::Zero);
    }
    if passes(size_of(block), off, len) {
        return Some(Reply::Range);
    }
    if is_too_long(block, off, len, mask) {
        return Some(Reply::TooLong);
    }
    if layout.is_none() {
        return Some(Reply::NoPool);
    }
    None
}

/// The refusal of a name that has no mapping.
pub(crate) fn refuse_unmapped(live: Option<Live>) -> Option<Reply>
    ensures { result ≡ unknown_or live (λ _. None) }
{
    match live {
        Some(_) => None,
        None => Some(Reply::Unknown),
    }
}

/// The refusal of bytes of a mapping: it isn't known, or they pass its end.
pub(crate) fn refuse_part(live: Option<Live>, off: u64, len: u64) -> Option<Reply>
    ensures { result ≡ unknown_or live (λ l. past_end l.run.len off len) }
{
    let Some(live) = live else {
        return Some(Reply::Unknown);
    };
    if passes(u64::from(live.run.len), off, len) {
        return Some(Reply::Range);
    }
    None
}

/// The refusal of a range of bytes of a mapping: it isn't known, the range has no byte, or it passes the mapping's end.
pub(crate) fn refuse_part_span(live: Option<Live>, off: u64, len: u64) -> Option<Reply>
    ensures { result ≡ unknown_or live (λ l. refuse Zero (len == 0)
        (past_end l.run.len off len)) }
{
    if live.is_some() && len == 0 {
        return Some(Reply::Zero);
    }
    refuse_part(live, off, len)
}

/// The refusal of bytes of the pool: there is no pool, they pass its end, or they don't lie in one area.
pub(crate) fn refuse_host(layout: Option<Layout>, off: u64, len: u64) -> Option<Reply>
    requires { ForSome layout IsLayout }
    ensures { (boot : Boot) → HasPool boot layout
        → result ≡ refuse NoPool (is_none boot.pool) (pool_refusal boot off len) }
{
    let Some(layout) = layout else {
        return Some(Reply::NoPool);
    };
    match layout.area_of(off, len) {
        Some(_) => None,
        None => Some(Reply::Range),
    }
}

/// The refusal of a range of bytes of the pool: there is no pool, the range has no byte, it passes the pool's end, or it doesn't
/// lie in one area.
pub(crate) fn refuse_host_span(layout: Option<Layout>, off: u64, len: u64) -> Option<Reply>
    requires { ForSome layout IsLayout }
    ensures { (boot : Boot) → HasPool boot layout → result ≡ refuse NoPool
        (is_none boot.pool) (refuse Zero (len == 0) (pool_refusal boot off len)) }
{
    if layout.is_some() && len == 0 {
        return Some(Reply::Zero);
    }
    refuse_host(layout, off, len)
}
