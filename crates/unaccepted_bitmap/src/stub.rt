//! What the boot stub makes of a map's unaccepted memory (after the EFI stub's `process_unaccepted_memory`).
ghost use Rattle.std.specs.Prelude.{◌≡◌, ◌≢◌, ℕ, [], ◌+◌, ◌-◌, ◌*◌, ◌/◌, ◌%◌, ◌^◌, ◌<◌, ◌≤◌, ◌++◌, All, IfOk, OnOk, length, map, false};
ghost use Rattle.std.specs.List.{list_any, AllPairs};
ghost use Rattle.std.specs.List.Sorted.{IsPermutation, IsNonDecreasingBy};
ghost use Rattle.guest_base.specs.declared.limits.TheConstants.{ADDRESS_END};
ghost use Rattle.guest_base.specs.Ranges.{in_range};
ghost use Rattle.event_core.specs.Map.{is_unaccepted, descriptor_end, MapRules, IsDescriptor, AreApart};
ghost use Rattle.event_core.specs.Stub.{default_unit, round_down, round_up, unaccepted, least_start, greatest_end, is_short, piece, early_of};
ghost use Rattle.event_core.specs.declared.boot.Descriptor.{Descriptor};
ghost use Rattle.event_core.specs.Units.{bit_of, unit_count};
ghost use Rattle.unaccepted_bitmap.specs.StubMap.{sets_unit, pending_run, EarlyRuns, IsUnaccepted, IsStubOf, IsRising};

use crate::bytes::set_units;
use event_core::{Descriptor, Runs};
use guest_base::limits::PAGE_BYTES;
use guest_base::{PageRun, PageState, Pages, Units};
use guest_map::GuestMap;
use std::alloc::{AllocError, Global};

/// The bytes of a unit where no table is handed in: 2 MiB.
pub const UNIT: u64 = 2_097_152;

/// The memory type of unaccepted memory (UEFI 2.9).
pub const UNACCEPTED: u32 = 15;

/// The unaccepted descriptors, in the order of the map.
pub fn unaccepted(alloc: Global, descriptors: &[Descriptor]) -> Result<Vec<Descriptor>, AllocError>
    ensures { IfOk result (λ kept. kept.items ≡ unaccepted descriptors.now) }
{
    descriptors
        .iter()
        .copied()
        .filter(|d| d.kind == UNACCEPTED)
        .collect(alloc)
}

/// The base and the bytes of the boot stub's bitmap for unaccepted descriptors, of which there is one.
pub fn stub_bits(alloc: Global, descriptors: &[Descriptor]) -> Result<(u64, Vec<u8>), AllocError>
    requires some { descriptors.now ≢ [] }
    requires each { All IsUnaccepted descriptors.now }
    ensures { IfOk result (λ made. IsStubOf descriptors.now made.0 made.1.items) }
{
    let base = base(descriptors);
    let bytes = bitmap_bytes(descriptors, base);
    let mut bits = vec![in alloc; 0; bytes as usize]?;
    set_whole_units(&mut bits, base, descriptors);
    Ok((base, bits))
}

/// The least start of the descriptors, rounded down to a unit.
fn base(descriptors: &[Descriptor]) -> u64
    ensures { result ≡ round_down default_unit (least_start descriptors.now) }
{
    least_start(descriptors) / UNIT * UNIT
}

/// The bytes of a bitmap from the base up to the greatest end of the descriptors, rounded up to a unit.
fn bitmap_bytes(descriptors: &[Descriptor], base: u64) -> u64
    requires ends { All (λ d. descriptor_end d ≤ ADDRESS_END) descriptors.now }
    requires base { base ≤ greatest_end descriptors.now }
    ensures { result ≡
        (round_up default_unit (greatest_end descriptors.now) - base + 8 * default_unit - 1)
        / (8 * default_unit) }
{
    let end = greatest_end(descriptors);
    (end.next_multiple_of(UNIT) - base).div_ceil(8 * UNIT)
}

/// Sets the bits of the units that lie wholly in a descriptor of two units or more.
fn set_whole_units(bits: &mut Vec<u8>, base: u64, descriptors: &[Descriptor])
    requires aligned { base % default_unit ≡ 0 }
    requires room { unit_count bits.old.items < 2 ^ 64 }
    requires starts { All (λ d. base ≤ d.start) descriptors.now }
    requires ends { All (λ d. descriptor_end d ≤
        base + unit_count bits.old.items * default_unit) descriptors.now }
    requires below { All (λ d. descriptor_end d ≤ ADDRESS_END) descriptors.now }
    requires clear { (unit : ℕ) → bit_of bits.old.items unit ≡ false }
    ensures size { length bits.new.items ≡ length bits.old.items }
    ensures each { (unit : ℕ) → bit_of bits.new.items unit ≡
        list_any (sets_unit base unit) descriptors.now }
{
    for d in descriptors {
        set_units(bits, whole_units(*d, base));
    }
}

/// The pieces of unaccepted memory that the boot stub accepts at once, rising by address: descriptors shorter than two units,
/// and what lies before the first and behind the last unit's border of the others. Each has the state Pending.
pub fn early(alloc: Global, map: &GuestMap) -> Result<Runs, AllocError>
    requires { MapRules map.now.descriptors map.now.hosts }
    ensures { IfOk result (EarlyRuns map.now.descriptors) }
{
    let descriptors = unaccepted_rising(alloc, map.descriptors.as_slice())?;
    let mut pieces = Vec::new(alloc);
    for d in &descriptors {
        push_early(&mut pieces, *d)?;
    }
    Ok(Runs::from_vec(pieces))
}

/// The unaccepted descriptors in rising order.
fn unaccepted_rising(
    alloc: Global,
    descriptors: &[Descriptor],
) -> Result<Vec<Descriptor>, AllocError>
    requires each { All IsDescriptor descriptors.now }
    requires apart { AllPairs AreApart descriptors.now }
    ensures { IfOk result (λ sorted. IsRising descriptors.now sorted.items) }
{
    let mut kept = unaccepted(alloc, descriptors)?;
    sort_by_start(&mut kept)?;
    Ok(kept)
}

fn sort_by_start(descriptors: &mut Vec<Descriptor>) -> Result<(), AllocError>
    ensures same { IsPermutation descriptors.old.items descriptors.new.items }
    ensures rise { OnOk result
        (IsNonDecreasingBy (λ (d : Descriptor). d.start) descriptors.new.items) }
{
    descriptors.sort_by_key(|d| d.start)?;
    Ok(())
}

fn end_of(d: Descriptor) -> u128
    ensures { result ≡ descriptor_end d }
{
    u128::from(d.start) + u128::from(d.pages) * u128::from(PAGE_BYTES)
}

fn least_start(descriptors: &[Descriptor]) -> u64
    ensures { result ≡ least_start descriptors.now }
{
    match descriptors {
        [] => 0,
        [first, rest @ ..] => rest.iter().fold(first.start, |least, d| least.min(d.start)),
    }
}

fn furthest_end(descriptors: &[Descriptor]) -> u128
    ensures { result ≡ greatest_end descriptors.now }
{
    descriptors
        .iter()
        .fold(0, |greatest, d| greatest.max(end_of(*d)))
}

fn greatest_end(descriptors: &[Descriptor]) -> u64
    requires { All (λ d. descriptor_end d ≤ ADDRESS_END) descriptors.now }
    ensures value { result ≡ greatest_end descriptors.now }
    ensures below { result ≤ ADDRESS_END }
{
    furthest_end(descriptors) as u64
}

/// Whether a descriptor is shorter than two units.
fn is_short(d: Descriptor) -> bool
    ensures { result ≡ is_short d }
{
    d.pages < 2 * UNIT / PAGE_BYTES
}

/// The units of a bitmap with this base that lie wholly in a descriptor; none where it is short.
fn whole_units(d: Descriptor, base: u64) -> Units
    requires aligned { base % default_unit ≡ 0 }
    requires start { base ≤ d.start }
    requires end { descriptor_end d ≤ ADDRESS_END }
    ensures units { (unit : ℕ) → in_range result.first result.count unit ≡ sets_unit base unit d }
    ensures inside { result.first + result.count ≤ (descriptor_end d - base) / default_unit }
{
    if is_short(d) {
        return Units { first: 0, count: 0 };
    }
    let first = (d.start - base).div_ceil(UNIT);
    let end = (d.start + d.pages * PAGE_BYTES - base) / UNIT;
    Units {
        first,
        count: end - first,
    }
}

fn push_early(pieces: &mut Vec<PageRun>, d: Descriptor) -> Result<(), AllocError>
    requires { descriptor_end d ≤ ADDRESS_END }
    ensures { OnOk result (pieces.new.items ≡ pieces.old.items ++ map pending_run (early_of d)) }
{
    let end = d.start + d.pages * PAGE_BYTES;
    if is_short(d) {
        return push_piece(pieces, d.start, end);
    }
    push_piece(pieces, d.start, d.start.next_multiple_of(UNIT))?;
    push_piece(pieces, end / UNIT * UNIT, end)
}

fn push_piece(pieces: &mut Vec<PageRun>, from: u64, to: u64) -> Result<(), AllocError>
    ensures { OnOk result (pieces.new.items ≡ pieces.old.items ++ map pending_run (piece from to)) }
{
    if from < to {
        let pages = Pages {
            first: from / PAGE_BYTES,
            count: (to - from) / PAGE_BYTES,
        };
        pieces.push(PageRun {
            pages,
            state: PageState::Pending,
        })?;
    }
    Ok(())
}
