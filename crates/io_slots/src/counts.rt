//! The counts of free slots, rewritten as runs are taken and released.
ghost use Rattle.std.specs.Prelude.{◌≡◌, ◌≢◌, ◌<◌, ◌≤◌, ◌+◌, ◌-◌, ◌%◌, ◌||◌, ◌&&◌, ◌^◌, ℕ, true, not, length, slice_index};
ghost use Rattle.guest_base.specs.Ranges.{InRange, in_range};
ghost use Rattle.guest_base.specs.Slots.{InOneSegment};
ghost use Rattle.io_slots.specs.FreeCounts.{IsCounted, IsCountedBut, zero_at};

use guest_base::limits::SEGMENT_SLOTS;

/// Counts all slots as free.
pub fn count_all(counts: &mut [u32])
    requires { length counts.old < 2 ^ 32 }
    ensures { (k : ℕ) → k < length counts.new
        → slice_index counts.new k ≡ SEGMENT_SLOTS - k % SEGMENT_SLOTS }
{
    for k in 0..counts.len() {
        counts[k] = SEGMENT_SLOTS - k as u32 % SEGMENT_SLOTS;
    }
}

/// Counts the slots of a run as used.
pub fn zero_run(counts: &mut [u32], at: usize, need: usize)
    requires inside { at + need ≤ length counts.old }
    requires counted { IsCounted counts.old }
    ensures counted { IsCountedBut counts.new at }
    ensures zeros { (k : ℕ) → zero_at counts.new k
        ≡ (in_range at need k || zero_at counts.old k) }
{
    for k in at..at + need {
        counts[k] = 0;
    }
}

/// Counts the slots of a run as free, from its last one down.
pub fn count_run(counts: &mut [u32], at: usize, need: usize)
    requires inside { at + need ≤ length counts.old }
    requires segments { length counts.old % SEGMENT_SLOTS ≡ 0 }
    requires counted { IsCounted counts.old }
    requires used { (k : ℕ) → InRange at need k → zero_at counts.old k ≡ true }
    ensures counted { IsCountedBut counts.new at }
    ensures zeros { (k : ℕ) → zero_at counts.new k
        ≡ (not (in_range at need k) && zero_at counts.old k) }
{
    let mut k = at + need;
    while k > at {
        k -= 1;
        counts[k] = free_after(counts, k) + 1;
    }
}

/// Counts the free slots just before `at` anew, in its segment.
pub fn recount_before(counts: &mut [u32], at: usize)
    requires inside { at < length counts.old }
    requires counted { IsCountedBut counts.old at }
    ensures counted { IsCounted counts.new }
    ensures zeros { (k : ℕ) → zero_at counts.new k ≡ zero_at counts.old k }
{
    let mut k = at;
    while k % SEGMENT_SLOTS as usize != 0 && counts[k - 1] != 0 {
        counts[k - 1] = counts[k] + 1;
        k -= 1;
    }
}

/// The count of the next slot, or 0 at a segment's end.
fn free_after(counts: &[u32], at: usize) -> u32
    requires inside { at < length counts.now }
    requires segments { length counts.now % SEGMENT_SLOTS ≡ 0 }
    ensures end { (at + 1) % SEGMENT_SLOTS ≡ 0 → result ≡ 0 }
    ensures next { (at + 1) % SEGMENT_SLOTS ≢ 0 → result ≡ slice_index counts.now (at + 1) }
{
    if (at + 1).is_multiple_of(SEGMENT_SLOTS as usize) {
        0
    } else {
        counts[at + 1]
    }
}
