//! The descriptors of a map file.
ghost use Rattle.std.specs.Prelude.{◌≡◌, ◌<◌, ◌≤◌, ◌^◌, [], length, position, sum_by};
ghost use Rattle.std.specs.BTreeMap.{get};
ghost use Rattle.std.specs.Ordering.{nat_cmp};
ghost use Rattle.event_core.specs.Map.{descriptor_end, ram_pages};
ghost use Rattle.guest_base.specs.declared.limits.TheConstants.{MAX_DESCRIPTORS};
ghost use Rattle.efi_map.specs.Starts.{IndexesDescriptors};
ghost use Rattle.efi_map.specs.MapFile.{Gives, descriptor_at, descriptors_at, all_descriptors_at, descriptor_fault, end_limit, meet};

use crate::fault::MapFault;
use crate::fields::header;
use crate::starts::{Starts, is_clear, note};
use byteorder::{ByteOrder, LittleEndian};
use event_core::Descriptor;
use guest_base::limits::{ADDRESS_END, MAX_RAM_PAGES, PAGE_BYTES};
use guest_map::is_ram;
use std::alloc::Global;

/// The address behind a descriptor's last byte.
fn end(d: Descriptor) -> u128
    ensures { result ≡ descriptor_end d }
{
    u128::from(d.start) + u128::from(d.pages) * u128::from(PAGE_BYTES)
}

/// Whether two descriptors have a byte in common.
fn meet(a: Descriptor, b: Descriptor) -> bool
    ensures { result ≡ meet a b }
{
    u128::from(a.start.max(b.start)) < end(a).min(end(b))
}

/// The bytes' greatest end for a descriptor.
fn end_limit(d: Descriptor) -> u128
    ensures limit { result ≡ end_limit d }
    ensures below { result ≤ 2 ^ 64 }
{
    if is_ram(d) {
        u128::from(ADDRESS_END)
    } else {
        1 << 64
    }
}

#[tactic(auto, unfolding(crate::specs::MapFile::descriptor_at, guest_map::specs::Fields::number))]
fn descriptor(size: u64, stride: u32, bytes: &[u8]) -> Result<(Descriptor, &[u8]), MapFault>
    requires { 40 ≤ stride }
    ensures { Gives (λ x. (x.0, x.1.now)) result (descriptor_at size stride bytes.now) }
{
    let stride = stride as usize;
    if bytes.len() < stride {
        return Err(MapFault::Short(size));
    }
    let kind = LittleEndian::read_u32(bytes);
    let start = LittleEndian::read_u64(&bytes[8..]);
    let pages = LittleEndian::read_u64(&bytes[24..]);
    Ok((Descriptor { kind, start, pages }, &bytes[stride..]))
}

/// The pages of RAM that a descriptor gives.
fn ram_pages(d: Descriptor) -> u64
    ensures { result ≡ ram_pages d }
{
    if is_ram(d) { d.pages } else { 0 }
}

/// The place of the first of these descriptors that a descriptor with pages has a byte in common with. They are gone
/// through only where there is one.
fn first_met(before: &[Descriptor], starts: &Starts, d: Descriptor) -> Option<usize>
    requires some { 0 < d.pages }
    requires below { descriptor_end d ≤ 2 ^ 64 }
    requires index { IndexesDescriptors (get nat_cmp starts.now) before.now }
    ensures { result ≡ position (meet d) before.now }
{
    let last = (end(d) - 1) as u64;
    if is_clear(starts, d.start, last) {
        return None;
    }
    before.iter().position(|earlier| meet(d, *earlier))
}

/// The first thing that is wrong with a descriptor, behind those before it, which have `ram` pages of RAM.
#[tactic(auto, unfolding(crate::specs::MapFile::descriptor_fault))]
fn fault(before: &[Descriptor], starts: &Starts, ram: u64, d: Descriptor) -> Option<MapFault>
    requires few { length before.now ≤ MAX_DESCRIPTORS }
    requires index { IndexesDescriptors (get nat_cmp starts.now) before.now }
    requires ram { ram ≡ sum_by ram_pages before.now }
    ensures { result ≡ descriptor_fault before.now d }
{
    if d.pages == 0 {
        return None;
    }
    let number = before.len() as u32;
    if d.start % PAGE_BYTES != 0 {
        return Some(MapFault::Unaligned(number));
    }
    if end(d) > end_limit(d) {
        return Some(MapFault::TooHigh(number));
    }
    if let Some(earlier) = first_met(before, starts, d) {
        return Some(MapFault::Overlap(earlier as u32, number));
    }
    if u128::from(ram) + u128::from(ram_pages(d)) > u128::from(MAX_RAM_PAGES) {
        return Some(MapFault::TooMuchRam);
    }
    None
}

/// The next `count` descriptors, those without pages too, and the bytes behind them.
fn descriptors(
    alloc: Global,
    size: u64,
    stride: u32,
    count: u32,
    bytes: &[u8],
) -> Result<(Vec<Descriptor>, &[u8]), MapFault>
    requires stride { 40 ≤ stride }
    requires few { count ≤ MAX_DESCRIPTORS }
    ensures { Gives (λ x. (x.0.items, x.1.now)) result
        (descriptors_at size stride count [] bytes.now) }
{
    let mut found = Vec::new(alloc);
    let mut starts = Starts::new(alloc);
    let mut ram = 0;
    let mut rest = bytes;
    for _ in 0..count {
        let (next, after) = descriptor(size, stride, rest)?;
        if let Some(fault) = fault(&found, &starts, ram, next) {
            return Err(fault);
        }
        note(&mut starts, next.start, end(next))?;
        found.push(next)?;
        ram += ram_pages(next);
        rest = after;
    }
    Ok((found, rest))
}

/// All descriptors of a file, those without pages too, and the bytes behind them.
#[tactic(auto, unfolding(crate::specs::MapFile::all_descriptors_at))]
pub fn all_descriptors(
    alloc: Global,
    size: u64,
    bytes: &[u8],
) -> Result<(Vec<Descriptor>, &[u8]), MapFault>
    ensures { Gives (λ x. (x.0.items, x.1.now)) result (all_descriptors_at size bytes.now) }
{
    let (stride, count, rest) = header(size, bytes)?;
    descriptors(alloc, size, stride, count, rest)
}
