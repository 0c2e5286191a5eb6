//! The search for a run of free slots.
ghost use Rattle.std.specs.Prelude.{◌≡◌, ◌<◌, ◌≤◌, ◌+◌, ◌-◌, ◌%◌, ◌^◌, true, false, length};
ghost use Rattle.guest_base.specs.Search.{first_such};
ghost use Rattle.guest_base.specs.Slots.{fits_at, meets_align};
ghost use Rattle.io_slots.specs.FreeCounts.{IsCounted, zero_at};

use guest_base::Align;
use guest_base::limits::SEGMENT_SLOTS;

/// The first place from `from` on and below `to` at which a run fits.
pub fn first_fitting(counts: &[u32], from: u32, to: u32, need: u32, align: Align) -> Option<u32>
    requires inside { to ≤ length counts.now }
    requires order { from ≤ to }
    requires few { length counts.now < 2 ^ 32 }
    requires segments { length counts.now % SEGMENT_SLOTS ≡ 0 }
    requires counted { IsCounted counts.now }
    requires some { 0 < need }
    requires small { need ≤ SEGMENT_SLOTS }
    ensures { result
        ≡ first_such (fits_at (zero_at counts.now) (length counts.now) need align)
        from (to - from) }
{
    let mut at = from;
    while at < to {
        let free = counts[at as usize];
        let skipped = skip_to(align, at);
        if skipped + need <= free && at + skipped < to {
            return Some(at + skipped);
        }
        at += free.max(1);
    }
    None
}

/// How many places a run has to skip from `at` on for its align: 0 or 1.
fn skip_to(align: Align, at: u32) -> u32
    ensures few { result ≤ 1 }
    ensures meets { meets_align align (at + result) ≡ true }
    ensures before { result ≡ 1 → meets_align align at ≡ false }
{
    match align {
        Align::Any => 0,
        Align::Even => at % 2,
        Align::Odd => 1 - at % 2,
    }
}
