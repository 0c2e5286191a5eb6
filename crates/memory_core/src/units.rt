//! Units of the kept bitmap.
ghost use Rattle.std.specs.Prelude.{◌≡◌, ℕ, [], ◌+◌, ◌-◌, ◌*◌, ◌^◌, ◌<◌, ◌≤◌, None, Some, Option, IfSome, vec_capacity};
ghost use Rattle.std.specs.Option.{ForSome, option_and_then, option_map_or};
ghost use Rattle.guest_base.specs.Search.{count_such};
ghost use Rattle.guest_base.specs.declared.memory.Block.{Block as BlockValue};
ghost use Rattle.guest_base.specs.declared.memory.Units.{Units};
ghost use Rattle.event_core.specs.Units.{first_run, units_end};
ghost use Rattle.block_allocator.specs.State.{IsBlock};
ghost use Rattle.memory_core.specs.Bitmaps.{bits_in, guarded_by, both_or_none, any_in, AreRunsFrom};
ghost use Rattle.memory_core.specs.OpenClaims.{MeetsNoOther, IsFirstMet};

use crate::claims::OpenClaim;
use accepting_ranges::Accepting;
use guest_base::{Block, Unit, Units};
use unaccepted_bitmap::Bitmap;

/// The guarded units of a range of bytes.
pub(crate) fn guarded_units_of(bits: &Option<Bitmap>, start: u64, len: u64) -> Option<Units>
    requires some { 1 ≤ len }
    requires end { start + len ≤ 2 ^ 40 }
    ensures units { result ≡ guarded_by bits.now start len }
    ensures end { ForSome result (λ u. u.first + u.count < 2 ^ 64) }
{
    match bits {
        Some(bits) => bits.claim_units(start, len),
        None => None,
    }
}

/// The guarded units of a block.
pub(crate) fn block_units_of(bits: &Option<Bitmap>, block: Option<Block>) -> Option<Units>
    requires { ForSome block (IsBlock 10) }
    ensures units { result ≡ option_and_then
        (λ (b : BlockValue). guarded_by bits.now (4096 * b.first) (4096 * 2 ^ b.order)) block }
    ensures end { ForSome result (λ u. u.first + u.count < 2 ^ 64) }
{
    match block {
        Some(block) => guarded_units_of(bits, 4096 * block.first, 4096 << block.order),
        None => None,
    }
}

/// The first maximal run of unaccepted units from one on and below another.
pub(crate) fn run_from(bits: &Option<Bitmap>, from: u64, end: u64) -> Option<Units>
    ensures { result ≡ first_run (bits_in bits.now) from end }
{
    match bits {
        Some(bits) => bits.next_run(Unit(from), Unit(end)),
        None => None,
    }
}

/// The first run of unaccepted units among units.
pub(crate) fn first_run_of(bits: &Option<Bitmap>, units: Option<Units>) -> Option<Units>
    requires { ForSome units (λ u. u.first + u.count < 2 ^ 64) }
    ensures { result ≡ option_and_then
        (λ (u : Units). first_run (bits_in bits.now) u.first (u.first + u.count)) units }
{
    match units {
        Some(units) => run_from(bits, units.first, units.first + units.count),
        None => None,
    }
}

/// Both, where both are there.
pub(crate) fn both_of(units: Option<Units>, run: Option<Units>) -> Option<(Units, Units)>
    ensures { result ≡ both_or_none units run }
{
    match (units, run) {
        (Some(units), Some(run)) => Some((units, run)),
        _ => None,
    }
}

/// Whether a range of memory has an unaccepted guarded unit.
pub fn has_unaccepted(bits: &Option<Bitmap>, start: u64, len: u64) -> bool
    requires some { 1 ≤ len }
    requires end { start + len ≤ 2 ^ 40 }
    ensures { result ≡ any_in (bits_in bits.now) (guarded_by bits.now start len) }
{
    match bits {
        Some(bits) => bits.contains(start, len),
        None => false,
    }
}

/// The units of the first claim that meets the units.
pub(crate) fn overlap_of(accepting: &Accepting<OpenClaim>, units: Option<Units>) -> Option<Units>
    ensures some { IfSome result (λ met. IsFirstMet accepting.now units met) }
    ensures none { result ≡ None → MeetsNoOther accepting.now units }
{
    match units {
        Some(units) => accepting.overlaps(units),
        None => None,
    }
}

/// Writes the maximal runs of unaccepted units behind a run among units into an empty list, which has room for as many as there are
/// unaccepted units behind it.
pub(crate) fn runs_behind(bits: &Option<Bitmap>, units: Units, run: Units, runs: &mut Vec<Units>)
    requires units { units.first + units.count < 2 ^ 64 }
    requires run { run.first + run.count ≤ units.first + units.count }
    requires empty { runs.old.items ≡ [] }
    requires room { count_such (bits_in bits.now) (units_end run) (units_end units - units_end run)
        ≤ vec_capacity runs.old }
    ensures { AreRunsFrom (bits_in bits.now) (units_end run) (units_end units) runs.new.items }
{
    let end = units.first + units.count;
    let mut at = run.first + run.count;
    while let Some(next) = run_from(bits, at, end) {
        runs.push_reserved(next);
        at = next.first + next.count;
    }
}

/// The number of unaccepted units among units.
pub(crate) fn count_unaccepted(bits: &Option<Bitmap>, units: Option<Units>) -> u64
    requires { ForSome units (λ u. u.first + u.count < 2 ^ 64) }
    ensures { result
        ≡ option_map_or (λ (u : Units). count_such (bits_in bits.now) u.first u.count) units 0 }
{
    match units {
        Some(units) => count_set(bits, units),
        None => 0,
    }
}

fn count_set(bits: &Option<Bitmap>, units: Units) -> u64
    requires { units.first + units.count < 2 ^ 64 }
    ensures { result ≡ count_such (bits_in bits.now) units.first units.count }
{
    let mut count = 0;
    for unit in units.first..units.first + units.count {
        if run_from(bits, unit, unit + 1).is_some() {
            count += 1;
        }
    }
    count
}
