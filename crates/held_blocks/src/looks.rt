//! The looks for a mapping's slots, and the areas of ranges of the pool.
ghost use Rattle.std.specs.Prelude.{◌≡◌, ◌+◌, ◌*◌, ◌<◌, ◌≤◌, false, None, Some, length};
ghost use Rattle.std.specs.Option.{ForSome, IsSome};
ghost use Rattle.guest_base.specs.Requests.{request_of, too_long};
ghost use Rattle.dma_map.specs.Pools.{HasLayout, HasPool, IsLayout, LiesIn};
ghost use Rattle.event_core.specs.declared.boot.Boot.{Boot};
ghost use Rattle.event_core.specs.AreaRows.{area_looked_in, look_reply};
ghost use Rattle.event_core.specs.Holdings.{block_bytes, block_named};
ghost use Rattle.event_core.specs.Pool.{area_of_offset};
ghost use Rattle.event_core.specs.Refusals.{pool_refusal};
ghost use Rattle.held_blocks.specs.Held.{IsInMemory};
ghost use Rattle.held_blocks.specs.Holdings.{own_in, Leaves, MayMap};

use crate::holdings::Holdings;
use dma_map::{Layout, TooLong, plan};
use event_core::{Name, Reply};
use guest_base::limits::{MAX_AREAS, PAGE_BYTES, SEGMENT_SLOTS, SLOT_BYTES};
use guest_base::{Block, CpuNo, Request, SlotRun};

/// What a mapping of bytes of a block asks of an area.
fn request_in(block: Block, off: u64, len: u64, mask: u64) -> Request
    requires memory { IsInMemory block }
    requires some { 0 < len }
    requires within { off + len ≤ block_bytes block }
    requires short { too_long (PAGE_BYTES * block.first + off) len mask ≡ false }
    ensures request { result ≡ request_of (PAGE_BYTES * block.first + off) len mask }
    ensures some { 0 < result.need }
    ensures few { result.need ≤ SEGMENT_SLOTS }
    ensures holds { result.offset + result.len ≤ SLOT_BYTES * result.need }
{
    match plan(PAGE_BYTES * block.first + off, len, mask) {
        Ok(request) => request,
        Err(TooLong) => unreachable!(),
    }
}

/// What a look is answered that comes after `looks` looks for the same mapping which found nothing: the address for the device,
/// or, in the last area, that the pool is full. Any other look is followed by the next one.
fn reply_to_look(layout: Layout, looks: u32, found: Option<SlotRun>) -> Option<Reply>
    requires layout { IsLayout layout }
    requires few { looks < MAX_AREAS }
    ensures { (boot : Boot) → HasLayout boot layout → result ≡ look_reply boot looks found }
{
    match found {
        Some(run) => Some(Reply::Addr(layout.device_address(run))),
        None if looks + 1 == layout.areas => Some(Reply::Full),
        None => None,
    }
}

impl Holdings {
    /// The layout of the pool that there is.
    fn pool(&self) -> Layout
        requires { IsSome self.now.layout }
        ensures layout { self.now.layout ≡ Some result }
        ensures stands { IsLayout result }
    {
        match self.layout {
            Some(layout) => layout,
            None => unreachable!(),
        }
    }

    /// What a mapping of bytes of a block asks of an area: its first byte is the block's byte `off`, and it keeps the bits of its
    /// address that `mask` names.
    pub fn request(&self, name: &Name, off: u64, len: u64, mask: u64) -> Request
        requires { MayMap (own_in self.now) name.now off len mask }
        ensures request { ForSome (block_named (own_in self.now) name.now) (λ h.
            result ≡ request_of (PAGE_BYTES * h.block.first + off) len mask) }
        ensures some { 0 < result.need }
        ensures few { result.need ≤ SEGMENT_SLOTS }
        ensures holds { result.offset + result.len ≤ SLOT_BYTES * result.need }
    {
        request_in(self.named(name), off, len, mask)
    }

    /// The area of the next look for the present mapping.
    pub fn area_to_look(&self, cpu: CpuNo) -> u32
        requires pool { IsSome self.now.layout }
        requires few { ForSome self.now.layout (λ l. self.now.looks < l.areas) }
        ensures area { (boot : Boot) → HasPool boot self.now.layout
            → result ≡ area_looked_in boot cpu.0 self.now.looks }
        ensures inside { ForSome self.now.layout (λ l. result < l.areas) }
    {
        self.pool().area_to_look(cpu, self.looks)
    }

    /// What a look is answered that found these slots, or none. None where the next area is looked in.
    pub fn look_reply(&self, found: Option<SlotRun>) -> Option<Reply>
        requires pool { IsSome self.now.layout }
        requires few { self.now.looks < MAX_AREAS }
        ensures { (boot : Boot) → HasPool boot self.now.layout
            → result ≡ look_reply boot self.now.looks found }
    {
        reply_to_look(self.pool(), self.looks, found)
    }

    /// One more look for the present mapping found nothing.
    pub fn looked(&mut self)
        requires { self.old.looks < MAX_AREAS }
        ensures { Leaves self.old self.new
            (record (own_in self.old) { looks = self.old.looks + 1 }) }
    {
        self.looks += 1;
    }

    /// The present command has its reply, and its looks count no more.
    pub fn ended(&mut self)
        ensures { Leaves self.old self.new (record (own_in self.old) { looks = 0 }) }
    {
        self.looks = 0;
    }

    /// The area of a range of bytes of the pool that isn't refused.
    pub fn host_area(&self, off: u64, len: u64) -> u32
        requires pool { IsSome self.now.layout }
        requires fine { (boot : Boot) × HasPool boot self.now.layout
            × (pool_refusal boot off len ≡ None) }
        ensures area { (boot : Boot) → HasPool boot self.now.layout
            → result ≡ area_of_offset boot off }
        ensures inside { ForSome self.now.layout (λ l. LiesIn l result off len) }
    {
        match self.pool().area_of(off, len) {
            Some(area) => area,
            None => unreachable!(),
        }
    }
}
