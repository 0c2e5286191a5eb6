//! Bits in bytes: bit k mod 8 of byte k / 8 is unit k.
ghost use Rattle.std.specs.Prelude.{◌≡◌, ℕ, ◌+◌, ◌-◌, ◌^◌, ◌<◌, ◌≤◌, length, false, if◌then◌else◌, ◌==◌, ◌||◌};
ghost use Rattle.guest_base.specs.Search.{first_such, row_length};
ghost use Rattle.event_core.specs.Units.{bit_of, unit_count, first_run};
ghost use Rattle.unaccepted_bitmap.specs.BitmapValue.{ClearsBits, SetsBits};

use guest_base::Units;

/// Whether a unit's bit is set; a unit outside the bytes has a clear bit.
pub fn is_set(bytes: &[u8], unit: u64) -> bool
    ensures { result ≡ bit_of bytes.now unit }
{
    match bytes.get((unit / 8) as usize) {
        Some(byte) => (byte >> (unit % 8)) & 1 == 1,
        None => false,
    }
}

/// The first unit from `from` on and below `end` whose bit is set.
fn first_set(bytes: &[u8], from: u64, end: u64) -> Option<u64>
    ensures { result ≡ first_such (bit_of bytes.now) from (end - from) }
{
    for unit in from..end {
        if is_set(bytes, unit) {
            return Some(unit);
        }
    }
    None
}

/// How many units from `from` on and below `end` have their bits set before the first that hasn't.
fn set_row(bytes: &[u8], from: u64, end: u64) -> u64
    ensures { result ≡ row_length (bit_of bytes.now) from (end - from) }
{
    for unit in from..end {
        if !is_set(bytes, unit) {
            return unit - from;
        }
    }
    end.saturating_sub(from)
}

/// The first maximal run of units from `from` on and below `to` whose bits are set, clipped to these.
pub fn run_of_set(bytes: &[u8], from: u64, to: u64) -> Option<Units>
    requires { unit_count bytes.now < 2 ^ 64 }
    ensures { result ≡ first_run (bit_of bytes.now) from to }
{
    let end = to.min(bytes.len() as u64 * 8);
    let first = first_set(bytes, from, end)?;
    Some(Units {
        first,
        count: set_row(bytes, first, end),
    })
}

/// Clears the bits of these units.
pub fn clear_units(bytes: &mut Vec<u8>, units: Units)
    requires inside { units.first + units.count ≤ unit_count bytes.old.items }
    requires room { unit_count bytes.old.items < 2 ^ 64 }
    ensures { ClearsBits bytes.old.items bytes.new.items units }
{
    let end = units.first + units.count;
    for unit in units.first..end {
        clear_unit(bytes, unit);
    }
}

fn clear_unit(bytes: &mut Vec<u8>, unit: u64)
    requires { unit < unit_count bytes.old.items }
    ensures size { length bytes.new.items ≡ length bytes.old.items }
    ensures each { (k : ℕ) → bit_of bytes.new.items k ≡
        (if k == unit then false else bit_of bytes.old.items k) }
{
    bytes[(unit / 8) as usize] &= !(1 << (unit % 8));
}

/// Sets the bits of these units.
pub fn set_units(bytes: &mut Vec<u8>, units: Units)
    requires inside { units.first + units.count ≤ unit_count bytes.old.items }
    requires room { unit_count bytes.old.items < 2 ^ 64 }
    ensures { SetsBits bytes.old.items bytes.new.items units }
{
    let after = units.first + units.count;
    for unit in units.first..after {
        set_unit(bytes, unit);
    }
}

fn set_unit(bytes: &mut Vec<u8>, unit: u64)
    requires { unit < unit_count bytes.old.items }
    ensures size { length bytes.new.items ≡ length bytes.old.items }
    ensures each { (k : ℕ) → bit_of bytes.new.items k ≡ (bit_of bytes.old.items k || (k == unit)) }
{
    bytes[(unit / 8) as usize] |= 1 << (unit % 8);
}
