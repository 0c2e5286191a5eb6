//! Ranges that are apart, in the order of their starts, so that the one that another range may meet is found in the
//! time of a look-up.
ghost use Rattle.std.specs.Prelude.{OnOk};
ghost use Rattle.std.specs.Bool.{OnTrue, OnFalse};
ghost use Rattle.std.specs.BTreeMap.{get};
ghost use Rattle.std.specs.Ordering.{nat_cmp};
ghost use Rattle.efi_map.specs.Starts.{AreRanges, IsClear, Notes};

use std::alloc::AllocError;
use std::collections::BTreeMap;

/// The ends of ranges, by their starts.
pub type Starts = BTreeMap<u64, u128>;

/// Whether each range that begins at `last` or below it ends at `start` or below it.
pub fn is_clear(starts: &Starts, start: u64, last: u64) -> bool
    requires { AreRanges (get nat_cmp starts.now) }
    ensures clear { OnTrue result (IsClear (get nat_cmp starts.now) start last) }
    ensures met { OnFalse result (¬ IsClear (get nat_cmp starts.now) start last) }
{
    match starts.range(..=last).next_back() {
        Some((_, end)) => *end <= u128::from(start),
        None => true,
    }
}

/// Adds a range, if it has a number.
pub fn note(starts: &mut Starts, start: u64, end: u128) -> Result<(), AllocError>
    ensures { OnOk result (Notes (get nat_cmp starts.old) (get nat_cmp starts.new) start end) }
{
    if u128::from(start) < end {
        starts.insert(start, end)?;
    }
    Ok(())
}
