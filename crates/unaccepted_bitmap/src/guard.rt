//! The guarded units of a range of bytes.
ghost use Rattle.std.specs.Prelude.{◌≡◌, ◌+◌, ◌*◌, ◌^◌, ◌<◌, ◌≤◌};
ghost use Rattle.event_core.specs.Units.{guarded, units_between, with_guard};

use guest_base::Units;

/// The units of a bitmap of `count` units that an acceptance of the `len` bytes from the address `start` on takes.
#[tactic(auto, unfolding(event_core::specs::Units::guarded))]
pub fn guarded_units(unit: u64, base: u64, count: u64, start: u64, len: u64) -> Option<Units>
    requires some { 0 < unit }
    requires room { count * unit < 2 ^ 64 }
    requires end { start + len + unit < 2 ^ 64 }
    ensures { result ≡ guarded unit base count start len }
{
    let end = start + len;
    if end < base {
        return None;
    }
    let guarded_end = end_with_guard(unit, end - base);
    units_of(unit, start.max(base) - base, guarded_end.min(count * unit))
}

/// An end on a unit's border grows by a unit, the guard.
fn end_with_guard(unit: u64, end: u64) -> u64
    requires some { 0 < unit }
    requires room { end + unit < 2 ^ 64 }
    ensures { result ≡ with_guard unit end }
{
    if end % unit == 0 { end + unit } else { end }
}

/// The units from the one that holds the byte `start` up to the one that holds the byte before `end`.
fn units_of(unit: u64, start: u64, end: u64) -> Option<Units>
    requires { 0 < unit }
    ensures { result ≡ units_between unit start end }
{
    if start >= end {
        return None;
    }
    let first = start / unit;
    Some(Units {
        first,
        count: end.div_ceil(unit) - first,
    })
}
