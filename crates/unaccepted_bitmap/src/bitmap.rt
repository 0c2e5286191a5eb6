//! A bitmap of unaccepted units.
ghost use Rattle.std.specs.Prelude.{◌≡◌, ℕ, ◌+◌, ◌^◌, ◌<◌, ◌≤◌, Ok, IfOk, IfSome};
ghost use Rattle.guest_base.specs.declared.limits.TheConstants.{ADDRESS_END};
ghost use Rattle.event_core.specs.Units.{unit_count, bit_of, first_run};
ghost use Rattle.event_core.specs.Table.{IsTable};
ghost use Rattle.unaccepted_bitmap.specs.BitmapValue.{ClearsBits, SetsBits, guarded_in, any_unit};
ghost use Rattle.unaccepted_bitmap.specs.TableFile.{table_of, table_bytes_of};

use crate::bytes::{clear_units, is_set, run_of_set, set_units};
use crate::guard::guarded_units;
use crate::stub::{UNIT, stub_bits, unaccepted};
use crate::table::table_bytes;
use guest_base::{Bytes, Unit, Units};
use guest_map::GuestMap;
use std::alloc::{AllocError, Global};
use std::marker::Model;

/// Which units of memory are unaccepted: bit k mod 8 of byte k / 8 stands for the unit k, counted from the base.
/// A unit outside the bitmap counts as accepted.
#[derive(Debug, Drop)]
pub struct Bitmap {
    unit: u64,
    base: u64,
    bits: Vec<u8>,
}

impl Model for Bitmap {
    ghost use Rattle.event_core.specs.Table.{Bits, IsTable};

    ghost Value = { Bits };

    ghost view = { λ a. record { unit = a.unit; base = a.base; bits = a.bits.items } };

    ghost invariant = { λ a.
        IsTable (record { unit = a.unit; base = a.base; bits = a.bits.items }) };
}

impl Bitmap {
    ghost use Rattle.event_core.specs.Map.{MapRules};
    ghost use Rattle.unaccepted_bitmap.specs.StubMap.{StubBitmap};

    /// The bitmap that the boot stub makes of a map: a unit's bit is set where the unit of 2 MiB lies wholly in an unaccepted
    /// descriptor of two units or more. None exactly where the map has no unaccepted descriptor.
    pub fn of_map(alloc: Global, map: &GuestMap) -> Result<Option<Bitmap>, AllocError>
        requires { MapRules map.now.descriptors map.now.hosts }
        ensures { IfOk result (StubBitmap map.now.descriptors) }
    {
        let descriptors = unaccepted(alloc, map.descriptors.as_slice())?;
        if descriptors.is_empty() {
            return Ok(None);
        }
        let (base, bits) = stub_bits(alloc, &descriptors)?;
        Ok(Some(Bitmap {
            unit: UNIT,
            base,
            bits,
        }))
    }

    /// The bitmap with these bytes of a unit, this base in bytes, and these bits.
    pub(crate) fn from_bits(unit: u64, base: u64, bits: Vec<u8>) -> Bitmap
        requires { IsTable (record { unit = unit; base = base; bits = bits.items }) }
        ensures { result ≡ record { unit = unit; base = base; bits = bits.items } }
    {
        Bitmap { unit, base, bits }
    }

    /// The bytes of a unit.
    pub fn unit(&self) -> u64
        ensures value { result ≡ self.now.unit }
        ensures kept { IsTable self.now }
    {
        self.unit
    }

    /// The address of the first unit, in bytes.
    pub fn base(&self) -> u64
        ensures value { result ≡ self.now.base }
        ensures kept { IsTable self.now }
    {
        self.base
    }

    /// The number of units.
    pub fn unit_count(&self) -> u64
        ensures value { result ≡ unit_count self.now.bits }
        ensures kept { IsTable self.now }
    {
        self.bits.len() as u64 * 8
    }

    /// Whether a unit's bit is set.
    pub(crate) fn has_bit(&self, unit: u64) -> bool
        ensures { result ≡ bit_of self.now.bits unit }
    {
        is_set(self.bits.as_slice(), unit)
    }

    /// A copy of the bytes.
    pub fn copy_bytes(&self, alloc: Global) -> Result<Bytes, AllocError>
        ensures { IfOk result (λ bytes. bytes ≡ self.now.bits) }
    {
        Ok(Bytes::from_vec(Vec::from_slice(alloc, self.bits.as_slice())?))
    }

    /// The unaccepted table of the bitmap. Read again, it gives the bitmap.
    pub fn table_bytes(&self, alloc: Global) -> Result<Bytes, AllocError>
        ensures written { IfOk result (λ bytes. bytes ≡ table_bytes_of self.now) }
        ensures again { IfOk result (λ bytes. table_of bytes ≡ Ok self.now) }
    {
        table_bytes(alloc, self.unit, self.base, self.bits.as_slice())
    }

    /// The units that an acceptance of the `len` bytes from the address `start` on takes, the guard among them: where the range
    /// ends on a unit's border, the unit behind it too, since a load at the last bytes may stray into it. What lies outside the
    /// bitmap is left out. None exactly where no unit is left (after Linux's `accept_memory`).
    pub fn claim_units(&self, start: u64, len: u64) -> Option<Units>
        requires some { 1 ≤ len }
        requires end { start + len ≤ ADDRESS_END }
        ensures units { result ≡ guarded_in self.now start len }
        ensures inside { IfSome result (λ units.
            (0 < units.count) × (units.first + units.count ≤ unit_count self.now.bits)) }
        ensures kept { IsTable self.now }
    {
        guarded_units(self.unit, self.base, self.unit_count(), start, len)
    }

    /// Whether one of the range's guarded units is unaccepted.
    pub fn contains(&self, start: u64, len: u64) -> bool
        requires some { 1 ≤ len }
        requires end { start + len ≤ ADDRESS_END }
        ensures { result ≡ any_unit (bit_of self.now.bits) (guarded_in self.now start len) }
    {
        match self.claim_units(start, len) {
            Some(units) => self
                .next_run(Unit(units.first), Unit(units.first + units.count))
                .is_some(),
            None => false,
        }
    }

    /// The first maximal run of unaccepted units from `from` on and below `to`, clipped to these.
    pub fn next_run(&self, from: Unit, to: Unit) -> Option<Units>
        ensures { result ≡ first_run (bit_of self.now.bits) from.0 to.0 }
    {
        run_of_set(self.bits.as_slice(), from.0, to.0)
    }

    /// Marks these units as accepted.
    pub fn clear(&mut self, units: Units)
        requires { units.first + units.count ≤ unit_count self.old.bits }
        ensures unit { self.new.unit ≡ self.old.unit }
        ensures base { self.new.base ≡ self.old.base }
        ensures bits { ClearsBits self.old.bits self.new.bits units }
    {
        clear_units(&mut self.bits, units);
    }

    /// Marks these units as unaccepted.
    pub fn set(&mut self, units: Units)
        requires { units.first + units.count ≤ unit_count self.old.bits }
        ensures unit { self.new.unit ≡ self.old.unit }
        ensures base { self.new.base ≡ self.old.base }
        ensures bits { SetsBits self.old.bits self.new.bits units }
    {
        set_units(&mut self.bits, units);
    }
}
