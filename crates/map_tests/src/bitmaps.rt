ghost use Rattle.std.specs.Prelude.{◌<◌, ◌≤◌, ◌+◌, ◌^◌, IfOk};
ghost use Rattle.event_core.specs.Map.{MapRules};

use guest_base::{PageRun, PageState, Pages, Unit, Units};
use guest_map::GuestMap;
use std::alloc::{AllocError, Global};
use std::test::Fail;
use unaccepted_bitmap::{BadBit, Bitmap, TableFault, early, read_table};

/// A map of unaccepted memory alone: these pages.
fn map_of(alloc: Global, first: u64, count: u64) -> Result<GuestMap, AllocError>
    requires some { 0 < count }
    requires end { first + count ≤ 2 ^ 28 }
    requires few { count ≤ 2 ^ 24 }
    ensures { IfOk result (λ map. MapRules map.descriptors map.hosts) }
{
    GuestMap::unaccepted(alloc, Pages { first, count })
}

/// The table of the bitmap of 8 MiB of unaccepted memory: version 1, units of 2 MiB from 4 MiB on, and a byte of bits.
const FOUR_UNITS_TABLE: [u8; 25] = [
    1, 0, 0, 0, 0, 0, 0x20, 0, 0, 0, 0x40, 0, 0, 0, 0, 0, 1, 0, 0, 0, 0, 0, 0, 0, 0x0f,
];

fn units(first: u64, count: u64) -> Option<Units> {
    Some(Units { first, count })
}

#[test]
fn guarded_units(rt: HostRuntime) -> Result<(), Fail> {
    let map = map_of(rt.alloc(), 1024, 2048)?;
    let bitmap = Bitmap::of_map(rt.alloc(), &map)?.ok_or("no bitmap")?;
    assert_eq!(rt; bitmap.claim_units(0x0, 0x1000), None);
    assert_eq!(rt; bitmap.claim_units(0x0, 0x400000), units(0, 1));
    assert_eq!(rt; bitmap.claim_units(0x400000, 0x1000), units(0, 1));
    assert_eq!(rt; bitmap.claim_units(0x400000, 0x200000), units(0, 2));
    assert_eq!(rt; bitmap.claim_units(0x5ff000, 0x1000), units(0, 2));
    assert_eq!(rt; bitmap.claim_units(0x5ff000, 0x2000), units(0, 2));
    assert_eq!(rt; bitmap.claim_units(0x1200000, 0x200000), units(7, 1));
    assert_eq!(rt; bitmap.claim_units(0x1400000, 0x1000), None);
    Ok(())
}

#[test]
fn runs(rt: HostRuntime) -> Result<(), Fail> {
    let map = map_of(rt.alloc(), 1024, 2048)?;
    let bitmap = Bitmap::of_map(rt.alloc(), &map)?.ok_or("no bitmap")?;
    let bytes = bitmap.copy_bytes(rt.alloc())?;
    assert_eq!(rt; bytes.as_slice(), [0x0f].as_slice());
    assert_eq!(rt; bitmap.next_run(Unit(1), Unit(8)), units(1, 3));
    assert_eq!(rt; bitmap.next_run(Unit(4), Unit(8)), None);
    assert!(rt; early(rt.alloc(), &map)?.is_empty());
    Ok(())
}

#[test]
fn unaligned_ends(rt: HostRuntime) -> Result<(), Fail> {
    let map = map_of(rt.alloc(), 0x401, 3072)?;
    let bitmap = Bitmap::of_map(rt.alloc(), &map)?.ok_or("no bitmap")?;
    assert_eq!(rt; bitmap.base(), 0x400000);
    let bytes = bitmap.copy_bytes(rt.alloc())?;
    assert_eq!(rt; bytes.as_slice(), [0x3e].as_slice());
    let table = bitmap.table_bytes(rt.alloc())?;
    assert_eq!(rt; table.as_slice(), table_with(0x3e).as_slice());
    let pieces = [pending(0x401, 0x1ff), pending(0x1000, 1)];
    assert_eq!(rt; early(rt.alloc(), &map)?.as_slice(), pieces.as_slice());
    Ok(())
}

/// The table of a bitmap of one byte of bits from 4 MiB on.
fn table_with(bits: u8) -> [u8; 25] {
    let mut table = FOUR_UNITS_TABLE;
    table[24] = bits;
    table
}

#[test]
fn short_descriptor(rt: HostRuntime) -> Result<(), Fail> {
    let map = map_of(rt.alloc(), 1024, 1023)?;
    let bitmap = Bitmap::of_map(rt.alloc(), &map)?.ok_or("no bitmap")?;
    let table = bitmap.table_bytes(rt.alloc())?;
    assert_eq!(rt; table.as_slice(), table_with(0).as_slice());
    let pieces = [pending(0x400, 0x3ff)];
    assert_eq!(rt; early(rt.alloc(), &map)?.as_slice(), pieces.as_slice());
    Ok(())
}

#[test]
fn reads_a_table(rt: HostRuntime) -> Result<(), Fail> {
    let mut bitmap = read_table(rt.alloc(), &FOUR_UNITS_TABLE)?;
    assert_eq!(rt; bitmap.unit(), 0x20_0000);
    assert_eq!(rt; bitmap.base(), 0x40_0000);
    assert_eq!(rt; bitmap.next_run(Unit(0), Unit(8)), units(0, 4));
    assert!(rt; bitmap.contains(0x60_0000, 0x1000));
    let second = bitmap.claim_units(0x60_0000, 0x1000).ok_or("no units")?;
    bitmap.clear(second);
    assert!(rt; !bitmap.contains(0x60_0000, 0x1000));
    assert_eq!(rt; bitmap.next_run(Unit(0), Unit(8)), units(0, 1));
    assert_eq!(rt; bitmap.next_run(Unit(1), Unit(8)), units(2, 2));
    bitmap.set(second);
    assert!(rt; bitmap.contains(0x60_0000, 0x1000));
    assert_eq!(rt; bitmap.next_run(Unit(0), Unit(8)), units(0, 4));
    Ok(())
}

/// The fields of a table of 2,048 units of 4 KiB from 4 MiB on.
const SMALL_UNITS: [u8; 24] = [
    1, 0, 0, 0, 0, 0x10, 0, 0, 0, 0, 0x40, 0, 0, 0, 0, 0, 0, 1, 0, 0, 0, 0, 0, 0,
];

/// The table of these fields: the bits of the first 512 units are clear, those of the 1,536 units behind them set.
fn small_units(alloc: Global) -> Result<Vec<u8>, AllocError> {
    let mut table = Vec::from_slice(alloc, &SMALL_UNITS)?;
    for at in 0..256u32 {
        table.push(if at < 64 { 0 } else { 0xff })?;
    }
    Ok(table)
}

#[test]
fn fits_small_units(rt: HostRuntime) -> Result<(), Fail> {
    let map = map_of(rt.alloc(), 1024, 2048)?;
    let bitmap = read_table(rt.alloc(), &small_units(rt.alloc())?)?;
    assert_eq!(rt; bitmap.unit(), 0x1000);
    let bitmap = bitmap.fit(&map).ok().ok_or("a bad bit")?;
    let runs = bitmap.ram(rt.alloc(), &map)?;
    let mut accepted = pending(1024, 512);
    accepted.state = PageState::Accepted;
    assert_eq!(rt; runs.as_slice(), [accepted, pending(1536, 1536)].as_slice());
    Ok(())
}

#[test]
fn refuses_a_bad_bit(rt: HostRuntime) -> Result<(), Fail> {
    let map = map_of(rt.alloc(), 1024, 2048)?;
    let mut table = table_with(1);
    table[10] = 0;
    let bitmap = read_table(rt.alloc(), &table)?;
    assert_eq!(rt; bitmap.fit(&map).err(), Some(BadBit(0)));
    Ok(())
}

#[test]
fn refuses_cut_tables(rt: HostRuntime) {
    for len in 0..24usize {
        let fault = read_table(rt.alloc(), &FOUR_UNITS_TABLE[..len]).err();
        assert_eq!(rt; fault, Some(TableFault::Short(len as u64)));
    }
    let fault = read_table(rt.alloc(), &FOUR_UNITS_TABLE[..24]).err();
    assert_eq!(rt; fault, Some(TableFault::BadLength(1)));
}

/// What reading answers where a byte of the table was changed.
fn fault_at(alloc: Global, at: usize, byte: u8) -> Option<TableFault>
    requires { at < 25 }
{
    let mut table = FOUR_UNITS_TABLE;
    table[at] = byte;
    read_table(alloc, &table).err()
}

#[test]
fn refuses_changed_tables(rt: HostRuntime) {
    let alloc = rt.alloc();
    let mut table = FOUR_UNITS_TABLE;
    table[5] = 0x30;
    table[6] = 0;
    let fault = read_table(alloc, &table).err();
    assert_eq!(rt; fault, Some(TableFault::BadUnit(12288)));
    assert_eq!(rt; fault_at(alloc, 0, 2), Some(TableFault::BadVersion(2)));
    assert_eq!(rt;
        fault_at(alloc, 6, 0x30),
        Some(TableFault::BadUnit(0x30_0000))
    );
    assert_eq!(rt;
        fault_at(alloc, 5, 0x30),
        Some(TableFault::BadUnit(0x20_3000))
    );
    assert_eq!(rt;
        fault_at(alloc, 9, 0x10),
        Some(TableFault::BadBase(0x40_1000))
    );
    assert_eq!(rt;
        fault_at(alloc, 13, 1),
        Some(TableFault::BadBase(0x100_0040_0000))
    );
    assert_eq!(rt; fault_at(alloc, 16, 2), Some(TableFault::BadLength(2)));
    assert_eq!(rt; fault_at(alloc, 24, 0), None);
}

fn pending(first: u64, count: u64) -> PageRun {
    PageRun {
        pages: Pages { first, count },
        state: PageState::Pending,
    }
}
