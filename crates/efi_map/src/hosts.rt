//! The host records of a map file.
ghost use Rattle.std.specs.Prelude.{◌≡◌, ◌≤◌, [], length, IfSome};
ghost use Rattle.std.specs.List.{list_any};
ghost use Rattle.std.specs.BTreeMap.{get};
ghost use Rattle.std.specs.Ordering.{nat_cmp};
ghost use Rattle.event_core.specs.Map.{IsHostRecord};
ghost use Rattle.guest_base.specs.declared.limits.TheConstants.{MAX_DESCRIPTORS};
ghost use Rattle.efi_map.specs.Starts.{IndexesHosts, host_end};
ghost use Rattle.efi_map.specs.MapFile.{Gives, level_of, are_pages, host_record, hosts_meet, host_at, hosts_at, all_hosts_at};

use crate::fault::MapFault;
use crate::fields::count;
use crate::starts::{Starts, is_clear, note};
use byteorder::{ByteOrder, LittleEndian};
use guest_base::limits::{ADDRESS_END, PAGE_BYTES};
use guest_base::{HostRun, Level, Pages};
use std::alloc::Global;

/// The bytes of a host record.
const RECORD: usize = 20;

fn level(number: u32) -> Option<Level>
    ensures { result ≡ level_of number }
{
    match number {
        0 => Some(Level::Small),
        1 => Some(Level::Large),
        2 => Some(Level::Huge),
        _ => None,
    }
}

/// Whether these bytes are whole pages, and lie below 2^40.
fn are_pages(start: u64, len: u64) -> bool
    ensures { result ≡ are_pages start len }
{
    start % PAGE_BYTES == 0
        && len % PAGE_BYTES == 0
        && len > 0
        && u128::from(start) + u128::from(len) <= u128::from(ADDRESS_END)
}

#[tactic(auto, unfolding(crate::specs::MapFile::host_record))]
fn record(start: u64, len: u64, number: u32) -> Option<HostRun>
    ensures record { result ≡ host_record start len number }
    ensures fits { IfSome result IsHostRecord }
{
    if !are_pages(start, len) {
        return None;
    }
    let pages = Pages {
        first: start / PAGE_BYTES,
        count: len / PAGE_BYTES,
    };
    level(number).map(|level| HostRun { pages, level })
}

/// The page behind a host record's last.
fn end(run: HostRun) -> u128
    ensures { result ≡ host_end run }
{
    u128::from(run.pages.first) + u128::from(run.pages.count)
}

/// Whether two host records have a page in common.
fn meet(a: HostRun, b: HostRun) -> bool
    ensures { result ≡ hosts_meet a b }
{
    u128::from(a.pages.first.max(b.pages.first)) < end(a).min(end(b))
}

/// Whether a host record has a page in common with one of these. They are gone through only where it has.
fn meets_one(before: &[HostRun], starts: &Starts, run: HostRun) -> bool
    requires record { IsHostRecord run }
    requires index { IndexesHosts (get nat_cmp starts.now) before.now }
    ensures { result ≡ list_any (hosts_meet run) before.now }
{
    let last = run.pages.first + (run.pages.count - 1);
    !is_clear(starts, run.pages.first, last) && before.iter().any(|earlier| meet(run, *earlier))
}

#[tactic(auto, unfolding(crate::specs::MapFile::host_at, guest_map::specs::Fields::number))]
fn host<'a>(
    size: u64,
    before: &[HostRun],
    starts: &Starts,
    bytes: &'a [u8],
) -> Result<(HostRun, &'a [u8]), MapFault>
    requires few { length before.now ≤ MAX_DESCRIPTORS }
    requires index { IndexesHosts (get nat_cmp starts.now) before.now }
    ensures { Gives (λ x. (x.0, x.1.now)) result (host_at size before.now bytes.now) }
{
    if bytes.len() < RECORD {
        return Err(MapFault::Short(size));
    }
    let start = LittleEndian::read_u64(bytes);
    let len = LittleEndian::read_u64(&bytes[8..]);
    let number = LittleEndian::read_u32(&bytes[16..]);
    match record(start, len, number) {
        Some(run) if !meets_one(before, starts, run) => Ok((run, &bytes[RECORD..])),
        _ => Err(MapFault::BadHost(before.len() as u32)),
    }
}

/// The next `count` host records, and the bytes behind them.
fn hosts(
    alloc: Global,
    size: u64,
    count: u32,
    bytes: &[u8],
) -> Result<(Vec<HostRun>, &[u8]), MapFault>
    requires { count ≤ MAX_DESCRIPTORS }
    ensures { Gives (λ x. (x.0.items, x.1.now)) result (hosts_at size count [] bytes.now) }
{
    let mut found = Vec::new(alloc);
    let mut starts = Starts::new(alloc);
    let mut rest = bytes;
    for _ in 0..count {
        let (next, after) = host(size, &found, &starts, rest)?;
        note(&mut starts, next.pages.first, end(next))?;
        found.push(next)?;
        rest = after;
    }
    Ok((found, rest))
}

/// All host records of a file, and the bytes behind them.
#[tactic(auto, unfolding(crate::specs::MapFile::all_hosts_at))]
pub fn all_hosts(alloc: Global, size: u64, bytes: &[u8]) -> Result<(Vec<HostRun>, &[u8]), MapFault>
    ensures { Gives (λ x. (x.0.items, x.1.now)) result (all_hosts_at size bytes.now) }
{
    let (count, rest) = count(size, bytes)?;
    hosts(alloc, size, count, rest)
}
