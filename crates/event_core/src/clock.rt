//! Stamps.
ghost use Rattle.std.specs.Prelude.{◌≡◌, ◌+◌, ◌^◌, ◌<◌, max};

/// Why a step can't be prepared.
#[derive(Clone, Copy, Debug, PartialEq, Eq)]
pub enum NoRoom {
    /// Out of memory.
    NoMemory,
    /// A stamp of 2^64 or more was reached.
    Worn(u128),
}

/// Both become the greater of the two plus 1: the stamp of an event made with this clock under a lock
/// whose last stamp is `last`.
pub fn stamp_with(clock: &mut u128, last: &mut u128)
    requires clock_small { clock.old < 2 ^ 65 }
    requires last_small { last.old < 2 ^ 65 }
    ensures clock { clock.new ≡ max clock.old last.old + 1 }
    ensures last { last.new ≡ max clock.old last.old + 1 }
{
    let stamp = (*clock).max(*last) + 1;
    *clock = stamp;
    *last = stamp;
}
