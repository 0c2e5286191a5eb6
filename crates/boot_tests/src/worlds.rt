ghost use Rattle.std.specs.Prelude.{◌≡◌, ◌<◌, ◌≤◌, ◌^◌, [], IfOk};
ghost use Rattle.guest_base.specs.declared.limits.TheConstants.{MAX_SLOTS};
ghost use Rattle.event_core.specs.Given.{FitsGiven};
ghost use Rattle.event_core.specs.Map.{MapRules};
ghost use Rattle.page_module.specs.MemPort.{calls_made};

use dma_map::Layout;
use event_core::{CallKind, ModuleCall, PortAnswer};
use guest_base::{Block, Level, Page, Pages, Unit, Units};
use guest_boot::{BootFault, World, boot};
use guest_map::GuestMap;
use page_module::MemPort;
use std::alloc::{AllocError, Global};
use std::test::Fail;
use unaccepted_bitmap::{Bitmap, read_table};

/// A map of unaccepted memory alone: this many pages from 4 MiB on.
fn map_of(alloc: Global, count: u64) -> Result<GuestMap, AllocError>
    requires some { 0 < count }
    requires few { count ≤ 2 ^ 24 }
    ensures { IfOk result (λ map. MapRules map.descriptors map.hosts) }
{
    GuestMap::unaccepted(alloc, Pages { first: 1024, count })
}

/// A power of two up to 64.
fn areas_of(order: u32) -> u32
    requires { order ≤ 6 }
    ensures { result ≡ 2 ^ order }
{
    1 << order
}

/// Boots a map for two processors, with a pool for which these slots are asked, in as many areas as the order says.
fn booted(
    alloc: Global,
    map: &GuestMap,
    table: Option<Bitmap>,
    slots: u32,
    order: u32,
    port: &mut MemPort,
) -> Result<World, BootFault>
    requires rules { MapRules map.now.descriptors map.now.hosts }
    requires fits { FitsGiven map.now.descriptors table }
    requires slots { slots ≤ MAX_SLOTS }
    requires order { order ≤ 6 }
    requires unmade { calls_made port.old ≡ [] }
{
    boot(alloc, map, table, slots, areas_of(order), 2, port)
}

fn accepted(first: u64, level: Level) -> ModuleCall {
    ModuleCall {
        kind: CallKind::Accept,
        first,
        count: level.pages(),
        level,
        answer: PortAnswer::Ok,
    }
}

#[test]
fn whole_blocks_wait(rt: HostRuntime) -> Result<(), Fail> {
    let alloc = rt.alloc();
    let map = map_of(alloc, 2048)?;
    let mut port = MemPort::new(alloc, Vec::new(alloc));
    let world = booted(alloc, &map, None, 0, 2, &mut port)
        .ok()
        .ok_or("no world")?;
    assert!(rt; world.boot.calls.is_empty());
    assert_eq!(rt; (world.boot.areas, world.boot.cpus), (4, 2));
    assert!(rt; world.areas.is_empty());
    assert_eq!(rt; (world.boot.slots, world.layout), (0, None));
    let units = Units { first: 0, count: 4 };
    assert_eq!(rt; world.memory.next_run(Unit(0), Unit(8)), Some(units));
    let waiting = Block {
        first: 1024,
        order: 10,
    };
    assert_eq!(rt; world.memory.waiting_block(), Some(waiting));
    Ok(())
}

/// The fields of a table: version 1, units of 4 KiB from 4 MiB on, and 256 bytes of bits.
const PAGE_UNITS: [u8; 24] = [
    1, 0, 0, 0, 0, 0x10, 0, 0, 0, 0, 0x40, 0, 0, 0, 0, 0, 0, 1, 0, 0, 0, 0, 0, 0,
];

/// Boots a map of this many pages from 4 MiB on, over a table of the bits of 2,048 units of 4 KiB.
fn world_over(alloc: Global, count: u64, bits: &[u8]) -> Result<World, Fail>
    requires some { 0 < count }
    requires few { count ≤ 2 ^ 24 }
{
    let map = map_of(alloc, count)?;
    let mut bytes = Vec::from_slice(alloc, &PAGE_UNITS)?;
    bytes.extend_from_slice(bits)?;
    let table = read_table(alloc, bytes.as_slice())?;
    let table = table.fit(&map).ok().ok_or("a bad bit")?;
    let mut port = MemPort::new(alloc, Vec::new(alloc));
    let world = booted(alloc, &map, Some(table), 0, 2, &mut port)
        .ok()
        .ok_or("no world")?;
    Ok(world)
}

#[test]
fn a_table_says_what_is_unaccepted(rt: HostRuntime) -> Result<(), Fail> {
    let mut bits = [0; 256];
    bits[64..].fill(0xff);
    let world = world_over(rt.alloc(), 2048, &bits)?;
    assert!(rt; world.boot.calls.is_empty());
    assert_eq!(rt; world.boot.unit, 4096);
    let units = Units {
        first: 512,
        count: 1536,
    };
    assert_eq!(rt; world.memory.next_run(Unit(0), Unit(2048)), Some(units));
    Ok(())
}

#[test]
fn an_accepted_block_is_free(rt: HostRuntime) -> Result<(), Fail> {
    let mut bits = [0; 256];
    bits[129..].fill(0xff);
    let world = world_over(rt.alloc(), 2048, &bits)?;
    assert!(rt; world.boot.calls.is_empty());
    let waiting = Block {
        first: 2048,
        order: 10,
    };
    assert_eq!(rt; world.memory.waiting_block(), Some(waiting));
    Ok(())
}

#[test]
fn a_guard_that_is_accepted_later_makes_a_block_wait(rt: HostRuntime) -> Result<(), Fail> {
    let mut bits = [0; 256];
    bits[128..192].fill(0xff);
    let world = world_over(rt.alloc(), 1536, &bits)?;
    assert_eq!(rt; world.memory.next_run(Unit(0), Unit(2048)), None);
    let waiting = Block {
        first: 1024,
        order: 10,
    };
    assert_eq!(rt; world.memory.waiting_block(), Some(waiting));
    Ok(())
}

#[test]
fn short_descriptors_are_accepted(rt: HostRuntime) -> Result<(), Fail> {
    let alloc = rt.alloc();
    let map = map_of(alloc, 1023)?;
    let mut port = MemPort::new(alloc, Vec::new(alloc));
    let world = booted(alloc, &map, None, 0, 0, &mut port)
        .ok()
        .ok_or("no world")?;
    let mut calls = vec![in alloc; accepted(0x400, Level::Large)]?;
    for page in 0x600..0x7ff {
        calls.push(accepted(page, Level::Small))?;
    }
    assert_eq!(rt; world.boot.calls.as_slice(), calls.as_slice());
    assert_eq!(rt; world.memory.next_run(Unit(0), Unit(8)), None);
    assert_eq!(rt; world.memory.waiting_block(), None);
    Ok(())
}

#[test]
fn small_blocks_are_accepted(rt: HostRuntime) -> Result<(), Fail> {
    let alloc = rt.alloc();
    let map = map_of(alloc, 2560)?;
    let mut port = MemPort::new(alloc, Vec::new(alloc));
    let world = booted(alloc, &map, None, 0, 0, &mut port)
        .ok()
        .ok_or("no world")?;
    let calls = [accepted(0xc00, Level::Large)];
    assert_eq!(rt; world.boot.calls.as_slice(), calls.as_slice());
    let units = Units { first: 0, count: 4 };
    assert_eq!(rt; world.memory.next_run(Unit(0), Unit(8)), Some(units));
    Ok(())
}

#[test]
fn stops_where_the_module_fails(rt: HostRuntime) -> Result<(), Fail> {
    let alloc = rt.alloc();
    let map = map_of(alloc, 1023)?;
    let mut port = MemPort::new(alloc, vec![in alloc; 3]?);
    let fault = booted(alloc, &map, None, 0, 0, &mut port)
        .err()
        .ok_or("a world")?;
    assert_eq!(rt; fault, BootFault::Module(Page(0x601)));
    Ok(())
}

/// The call that shares the pool of 64 pages at 4 MiB.
fn shared() -> ModuleCall {
    ModuleCall {
        kind: CallKind::Share,
        first: 0x400,
        count: 64,
        level: Level::Small,
        answer: PortAnswer::Ok,
    }
}

#[test]
fn a_pool_is_accepted_and_shared(rt: HostRuntime) -> Result<(), Fail> {
    let alloc = rt.alloc();
    let map = map_of(alloc, 2048)?;
    let mut port = MemPort::new(alloc, Vec::new(alloc));
    let world = booted(alloc, &map, None, 1, 0, &mut port)
        .ok()
        .ok_or("no world")?;
    let calls = [
        accepted(0x400, Level::Large),
        shared(),
        accepted(0x600, Level::Large),
        accepted(0x800, Level::Large),
    ];
    assert_eq!(rt; world.boot.calls.as_slice(), calls.as_slice());
    let pool = Pages {
        first: 0x400,
        count: 64,
    };
    let layout = Layout {
        pool,
        slots: 128,
        areas: 1,
    };
    assert_eq!(rt; (world.layout, world.areas.len()), (Some(layout), 1));
    let units = Units { first: 3, count: 1 };
    assert_eq!(rt; world.memory.next_run(Unit(0), Unit(8)), Some(units));
    let waiting = Block {
        first: 0x800,
        order: 10,
    };
    assert_eq!(rt; world.memory.waiting_block(), Some(waiting));
    Ok(())
}

#[test]
fn areas_share_a_raised_pool(rt: HostRuntime) -> Result<(), Fail> {
    let alloc = rt.alloc();
    let map = map_of(alloc, 2048)?;
    let mut port = MemPort::new(alloc, Vec::new(alloc));
    let world = booted(alloc, &map, None, 300, 2, &mut port)
        .ok()
        .ok_or("no world")?;
    assert_eq!(rt; (world.boot.slots, world.boot.areas), (512, 4));
    assert_eq!(rt; world.areas.len(), 4);
    let pool = Pages {
        first: 0x400,
        count: 256,
    };
    assert_eq!(rt; world.boot.pool, Some(pool));
    Ok(())
}

#[test]
fn a_pool_may_have_no_room(rt: HostRuntime) -> Result<(), Fail> {
    let alloc = rt.alloc();
    let map = map_of(alloc, 63)?;
    let mut port = MemPort::new(alloc, Vec::new(alloc));
    let fault = booted(alloc, &map, None, 128, 0, &mut port)
        .err()
        .ok_or("a world")?;
    assert_eq!(rt; fault, BootFault::PoolNoRoom);
    Ok(())
}

#[test]
fn stops_in_the_pool(rt: HostRuntime) -> Result<(), Fail> {
    let alloc = rt.alloc();
    let map = map_of(alloc, 2048)?;
    let mut port = MemPort::new(alloc, vec![in alloc; 1, 3]?);
    let fault = booted(alloc, &map, None, 128, 0, &mut port)
        .err()
        .ok_or("a world")?;
    assert_eq!(rt; fault, BootFault::Module(Page(0x401)));
    Ok(())
}

#[test]
fn stops_where_the_pool_is_not_shared(rt: HostRuntime) -> Result<(), Fail> {
    let alloc = rt.alloc();
    let map = map_of(alloc, 2048)?;
    let mut port = MemPort::new(alloc, vec![in alloc; 2]?);
    let fault = booted(alloc, &map, None, 128, 0, &mut port)
        .err()
        .ok_or("a world")?;
    assert_eq!(rt; fault, BootFault::Module(Page(0x400)));
    Ok(())
}
