//! The slots of one area of the bounce-buffer pool, and the search for a run of free ones.
#![tactic(auto)]

ghost use Rattle.std.specs.Prelude.{◌≡◌, ◌<◌, ◌≤◌, ◌+◌, ◌%◌, ◌||◌, ◌&&◌, ℕ, true, false, not, IfOk, ◌==◌, if◌then◌else◌};
ghost use Rattle.guest_base.specs.Ranges.{InRange, in_range};
ghost use Rattle.guest_base.specs.Slots.{InOneSegment, choose, free_run, hint_after};

mod counts;
mod search;
#[cfg(test)]
mod tests;

use counts::{count_all, count_run, recount_before, zero_run};
use guest_base::Align;
use guest_base::limits::SEGMENT_SLOTS;
use search::first_fitting;
use std::alloc::{AllocError, Global};
use std::marker::Model;

/// The slots of an area: which are used, and where the next search begins. A segment is 128 slots.
///
/// It keeps for each slot the length of the free run that begins at it within its segment, after Linux's swiotlb.
#[derive(Debug, Drop)]
pub struct Slots {
    counts: Vec<u32>,
    hint: u32,
}

impl Model for Slots {
    ghost use Rattle.std.specs.Prelude.{map, ◌==◌};
    ghost use Rattle.io_slots.specs.SlotUse.{SlotUse};
    ghost use Rattle.io_slots.specs.FreeCounts.{IsKept};

    ghost Value = { SlotUse };

    ghost view = { λ s. record {
      flags = map (λ count. count == 0) s.counts.items;
      hint = s.hint;
    } };

    ghost invariant = { λ s. IsKept s.counts.items s.hint };
}

impl Slots {
    ghost use Rattle.io_slots.specs.SlotUse.{slot_count, is_used, used_count};

    /// An area of `count` free slots, a positive multiple of 128.
    pub fn new(alloc: Global, count: u32) -> Result<Slots, AllocError>
        requires some { 0 < count }
        requires segments { count % SEGMENT_SLOTS ≡ 0 }
        ensures count { IfOk result (λ s. slot_count s ≡ count) }
        ensures hint { IfOk result (λ s. s.hint ≡ 0) }
        ensures free { IfOk result (λ s. (k : ℕ) → k < count → is_used s k ≡ false) }
    {
        let mut counts = vec![in alloc; 0; count as usize]?;
        count_all(counts.as_mut_slice());
        Ok(Slots { counts, hint: 0 })
    }

    /// The first place at which `need` free slots, 1 to 128, stand in one segment and begin as `align` asks. The places
    /// are tried in the order hint, .., last, 0, .., hint - 1. None exactly where no place fits; the hint stays.
    pub fn fits(&self, need: u32, align: Align) -> Option<u32>
        requires some { 0 < need }
        requires few { need ≤ SEGMENT_SLOTS }
        ensures { result
            ≡ choose (is_used self.now) (slot_count self.now) self.now.hint need align }
    {
        let counts = self.counts.as_slice();
        let last = first_fitting(counts, self.hint, counts.len() as u32, need, align);
        match last {
            Some(at) => Some(at),
            None => first_fitting(counts, 0, self.hint, need, align),
        }
    }

    /// Takes the `need` free slots from `at` on, which stand in one segment. The hint becomes the place after them, or 0 at
    /// the area's end.
    pub fn take(&mut self, at: u32, need: u32)
        requires some { 0 < need }
        requires segment { InOneSegment at need }
        requires free { (k : ℕ) → InRange at need k → is_used self.old k ≡ false }
        ensures count { slot_count self.new ≡ slot_count self.old }
        ensures used { (k : ℕ) → is_used self.new k ≡ (in_range at need k || is_used self.old k) }
        ensures hint { self.new.hint ≡ hint_after (slot_count self.old) at need }
    {
        let slots = self.counts.len() as u32;
        let counts = self.counts.as_mut_slice();
        zero_run(counts, at as usize, need as usize);
        recount_before(counts, at as usize);
        self.hint = hint_behind(slots, at + need);
    }

    /// Frees the `need` used slots from `at` on, which stand in one segment. The hint stays.
    pub fn release(&mut self, at: u32, need: u32)
        requires some { 0 < need }
        requires segment { InOneSegment at need }
        requires inside { at + need ≤ slot_count self.old }
        requires used { (k : ℕ) → InRange at need k → is_used self.old k ≡ true }
        ensures count { slot_count self.new ≡ slot_count self.old }
        ensures used { (k : ℕ) → is_used self.new k
            ≡ (not (in_range at need k) && is_used self.old k) }
        ensures hint { self.new.hint ≡ self.old.hint }
    {
        let first = at as usize;
        let counts = self.counts.as_mut_slice();
        count_run(counts, first, need as usize);
        recount_before(counts, first);
    }

    /// The number of used slots.
    pub fn used(&self) -> u32
        ensures { result ≡ used_count self.now }
    {
        self.counts.iter().filter(|count| **count == 0).count() as u32
    }

    /// The place where the next search begins.
    pub fn hint(&self) -> u32
        ensures { result ≡ self.now.hint }
    {
        self.hint
    }

    /// The length of the free run that begins at a slot within its segment; 0 where the slot is used.
    pub fn free_run(&self, at: u32) -> u32
        requires { at < slot_count self.now }
        ensures { result ≡ free_run (is_used self.now) at }
    {
        self.counts[at as usize]
    }
}

/// The hint after a run that ends before `end`.
fn hint_behind(slots: u32, end: u32) -> u32
    requires some { 0 < slots }
    requires within { end ≤ slots }
    ensures slot { result < slots }
    ensures place { result ≡ (if end == slots then 0 else end) }
{
    if end == slots { 0 } else { end }
}
