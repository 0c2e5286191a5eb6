//! Boot: what is made of a map, and the memory that it leaves.
ghost use Rattle.std.specs.Prelude.{◌≡◌, ◌≢◌, ◌≤◌, ◌+◌, ◌/◌, ◌^◌, [], None, Some, Err, List, All, IfOk, IfSome, OnOk, map, length};
ghost use Rattle.std.specs.List.{AllPairs, flat_map};
ghost use Rattle.guest_base.specs.Counts.{Rose};
ghost use Rattle.guest_base.specs.Requests.{raised_slots};
ghost use Rattle.guest_base.specs.declared.limits.TheConstants.{PAGE_END};
ghost use Rattle.guest_base.specs.declared.memory.Block.{Block as BlockValue};
ghost use Rattle.guest_base.specs.declared.memory.Page.{Page as PageValue};
ghost use Rattle.guest_base.specs.declared.memory.Pages.{Pages as PagesValue};
ghost use Rattle.guest_base.specs.declared.memory.PageRun.{PageRun as PageRunValue};
ghost use Rattle.event_core.specs.Map.{MapRules};
ghost use Rattle.event_core.specs.Given.{FitsGiven};
ghost use Rattle.event_core.specs.Boot.{BootRight, BootStopped, BootFront, InTurn, StagePart};
ghost use Rattle.event_core.specs.Cut.{blocks_of, cut, ram_ranges, without_pool};
ghost use Rattle.event_core.specs.Runs.{GoesBefore, run_end};
ghost use Rattle.memory_core.specs.Booted.{IsBooted};
ghost use Rattle.unaccepted_bitmap.specs.StubMap.{pending_run};
ghost use Rattle.guest_boot.specs.Booting.{StandsAfter, WorkedOn, FaultsBy, stages_by, IsEarly, LieInMemory, PoolGetsAccepted};
ghost use Rattle.guest_boot.specs.Placing.{HasNoRoom, IsParted, LayoutIn, MayAsk, place_in, pool_in};
ghost use Rattle.guest_boot.specs.Starting.{IsFirstBoot, BeginsWith};
ghost use Rattle.guest_boot.specs.Worlds.{WorldStands};
ghost use Rattle.guest_boot.specs.Putting.{HasPut, StagesPut};

use crate::accept::Kept;
use crate::cut::{cut_blocks, ranges};
use crate::fault::BootFault;
use crate::place::{first_areas, lay_out, pool_in, slots_in};
use crate::share::open_pool;
use crate::stages::{accept_blocks, accept_early};
use crate::store::with_room;
use block_allocator::Blocks;
use dma_map::Layout;
use event_core::{Boot, Hosts, Runs};
use guest_base::{Block, Bytes, Items, PageRun};
use guest_map::GuestMap;
use io_areas::Area;
use memory_core::Memory;
use page_module::{PageTable, Port};
use std::alloc::{AllocError, Global};
use unaccepted_bitmap::{Bitmap, early};

/// The bytes of a unit where no table is handed in: 2 MiB.
const UNIT_BYTES: u64 = 2_097_152;

/// A guest as boot leaves it.
#[derive(Drop)]
pub struct World {
    pub boot: Boot,
    pub memory: Memory,
    /// The areas of the pool, each at the place of its number: its slots are free and its bytes zero. None without a pool.
    pub areas: Vec<Area>,
    /// The pool.
    pub layout: Option<Layout>,
}

/// Boots a map with a pool for which `slots` are asked, 0 to 131,072, in `areas` areas, a power of two and at most 64; for 0 slots there
/// is none. The count of slots is raised to 128 for each area, or else to a power of two. A table of an earlier kernel that is handed in
/// is one that fits the map; there are at most 64 processors.
///
/// The pool stands at the lowest place where its pages, of two slots each, are RAM. All module calls are made through `port`, which has
/// made none: those of the early pieces, of which there are none with a table; of the pool's guarded units that aren't accepted; the one
/// that shares the pool; and then those of the blocks smaller than 4 MiB whose guarded units aren't all accepted, rising. The memory has
/// the blocks into which RAM outside the pool is cut: one of 4 MiB waits where one of its guarded units is unaccepted when boot comes to
/// it, and all others are free.
///
/// `PoolNoRoom` comes only where no range of RAM holds the pool; nothing was asked of the port then. `Module` comes only where one of
/// the acceptances stopped, or the pool wasn't shared, so only where the port's count of faults rose; the port's calls are then boot's up
/// to there. Whatever the answer, the port's calls are a front of boot's, and a port that never fails stays one.
pub fn boot<P: Port>(
    alloc: Global,
    map: &GuestMap,
    table: Option<Bitmap>,
    slots: u32,
    areas: u32,
    cpus: u32,
    port: &mut P,
) -> Result<World, BootFault>
    requires rules { MapRules map.now.descriptors map.now.hosts }
    requires fits { FitsGiven map.now.descriptors table }
    requires asked { MayAsk slots areas }
    requires few { cpus ≤ 64 }
    requires unmade { P.made port.old ≡ [] }
    ensures right { IfOk result (λ w.
        BootRight map.now.descriptors map.now.hosts table slots areas cpus w.boot) }
    ensures stands { IfOk result (λ w. WorldStands w) }
    ensures made { IfOk result (λ w. P.made port.new ≡ w.boot.calls) }
    ensures stopped { (page : PageValue) → result ≡ Err (BootFault.Module page)
        → BootStopped map.now.descriptors map.now.hosts table slots areas cpus
        (P.made port.new) page }
    ensures no_room { result ≡ Err BootFault.PoolNoRoom
        → HasNoRoom map.now.descriptors slots areas }
    ensures unasked { result ≡ Err BootFault.PoolNoRoom → port.new ≡ port.old }
    ensures front { BootFront map.now.descriptors map.now.hosts table slots areas cpus
        (P.made port.new) }
    ensures failed { (page : PageValue) → result ≡ Err (BootFault.Module page)
        → Rose (P.faults port.old) (P.faults port.new) }
    ensures faults { P.faults port.old ≤ P.faults port.new }
    ensures never_fails { P.never_fails port.old → P.never_fails port.new }
{
    let Given { ram, bits, pieces } = first_of(alloc, map, table)?;
    let Cut { layout, blocks } = cut_ram(alloc, &ram, slots, areas)?;
    let mut store = with_room(alloc, blocks.len())?;
    let table = PageTable::new(alloc, &ram)?;
    let mut boot = first_boot(alloc, &map.hosts, ram, &bits, layout, areas, cpus)?;
    let mut kept = Kept {
        table,
        bits,
        calls: Vec::new(alloc),
    };
    accept_stages(
        alloc,
        &boot,
        &mut kept,
        port,
        pieces.as_slice(),
        blocks.as_slice(),
        &mut store,
    )?;
    let Kept { table, bits, calls } = kept;
    boot.calls = Items::from_vec(calls);
    let areas = first_areas(alloc, layout)?;
    let memory = Memory::new(alloc, &boot, table, bits, store)?;
    Ok(World {
        boot,
        memory,
        areas,
        layout,
    })
}

/// What boot begins with: the runs of RAM by their first states, the bitmap, and the pieces that are accepted at once.
#[derive(Drop)]
struct Given {
    ram: Runs,
    bits: Option<Bitmap>,
    pieces: Runs,
}

/// What boot begins with: by the table where one is given, and else by the map alone, as the boot stub leaves it.
fn first_of(alloc: Global, map: &GuestMap, table: Option<Bitmap>) -> Result<Given, AllocError>
    requires { MapRules map.now.descriptors map.now.hosts }
    ensures { IfOk result (λ g.
        BeginsWith map.now.descriptors table g.ram g.bits g.pieces) }
{
    match table {
        Some(table) => Ok(Given {
            ram: table.ram(alloc, map)?,
            bits: Some(table),
            pieces: Runs::new(alloc),
        }),
        None => Ok(Given {
            ram: map.ram(alloc)?,
            bits: Bitmap::of_map(alloc, map)?,
            pieces: early(alloc, map)?,
        }),
    }
}

/// Where the pool stands, if there is one, and the blocks into which RAM outside it is cut.
#[derive(Drop)]
struct Cut {
    layout: Option<Layout>,
    blocks: Vec<Block>,
}

/// Places the pool, and cuts the RAM outside it into blocks. `PoolNoRoom` exactly where no range of RAM holds the pool.
fn cut_ram(alloc: Global, ram: &Runs, slots: u32, areas: u32) -> Result<Cut, BootFault>
    requires asked { MayAsk slots areas }
    requires low { All (λ run. run_end run ≤ PAGE_END) ram.now }
    ensures layout { IfOk result (λ cut. LayoutIn (ram_ranges ram.now) slots areas cut.layout) }
    ensures parted { IfOk result (λ cut. IfSome cut.layout IsParted) }
    ensures blocks { IfOk result (λ cut. cut.blocks.items
        ≡ flat_map blocks_of (flat_map (without_pool (pool_in cut.layout)) (ram_ranges ram.now))) }
    ensures orders { IfOk result (λ cut. All (λ (b : BlockValue). b.order ≤ 10) cut.blocks.items) }
    ensures ends { IfOk result (λ cut.
        All (λ (b : BlockValue). b.first + 2 ^ b.order ≤ PAGE_END) cut.blocks.items) }
    ensures no_stop { (page : PageValue) → result ≢ Err (BootFault.Module page) }
    ensures asked { result ≡ Err BootFault.PoolNoRoom → slots ≢ 0 }
    ensures nowhere { result ≡ Err BootFault.PoolNoRoom
        → place_in (raised_slots slots areas / 2) (ram_ranges ram.now) ≡ None }
{
    let ranges = ranges(alloc, ram.as_slice())?;
    let layout = lay_out(ranges.as_slice(), slots, areas)?;
    let blocks = cut_blocks(alloc, ranges.as_slice(), pool_in(layout))?;
    Ok(Cut { layout, blocks })
}

/// What is recorded of a boot before its first call, where these are the bits of the unaccepted units, and this is the pool.
fn first_boot(
    alloc: Global,
    hosts: &Hosts,
    ram: Runs,
    bits: &Option<Bitmap>,
    layout: Option<Layout>,
    areas: u32,
    cpus: u32,
) -> Result<Boot, AllocError>
    ensures { IfOk result (λ boot. IsFirstBoot hosts.now areas cpus ram bits.now layout boot) }
{
    let (base, unit, bits) = match bits {
        Some(bits) => (bits.base(), bits.unit(), bits.copy_bytes(alloc)?),
        None => (0, UNIT_BYTES, Bytes::new(alloc)),
    };
    Ok(Boot {
        ram,
        hosts: Items::from_vec(Vec::from_slice(alloc, hosts.as_slice())?),
        base,
        unit,
        bits,
        cpus,
        slots: slots_in(layout),
        areas,
        pool: pool_in(layout),
        calls: Items::new(alloc),
    })
}

/// Accepts the early pieces, then the pool, which it shares, and then the blocks smaller than 4 MiB, and puts each block of the cut
/// into the store.
fn accept_stages<P: Port>(
    alloc: Global,
    boot: &Boot,
    kept: &mut Kept,
    port: &mut P,
    pieces: &[PageRun],
    blocks: &[Block],
    store: &mut Blocks,
) -> Result<(), BootFault>
    requires ram { AllPairs GoesBefore boot.now.ram }
    requires booted { IsBooted boot.now }
    requires unmade { P.made port.old ≡ [] }
    requires stands { StandsAfter boot.now (P.made port.old) kept.old }
    requires early { All (λ (piece : PageRunValue). IsEarly boot.now piece.pages) pieces.now }
    requires place { (pool : PagesValue) → boot.now.pool ≡ Some pool → LieInMemory pool }
    requires accepted { PoolGetsAccepted boot.now pieces.now }
    requires blocks { blocks.now ≡ cut boot.now }
    requires orders { All (λ (b : BlockValue). b.order ≤ 10) blocks.now }
    requires ends { All (λ (b : BlockValue). b.first + 2 ^ b.order ≤ PAGE_END) blocks.now }
    requires empty { HasPut [] store.old }
    requires room { length blocks.now ≤ store.old.room }
    ensures done { WorkedOn boot.now
        (InTurn (StagePart boot.now) (P.made port.old) (stages_by boot.now pieces.now))
        (P.made port.old) (P.made port.new) kept.new result }
    ensures put { OnOk result
        (StagesPut boot.now (P.made port.old) pieces.now (P.made port.new) store.new) }
    ensures faults { FaultsBy (P.faults port.old) (P.faults port.new) result }
    ensures never_fails { P.never_fails port.old → P.never_fails port.new }
{
    accept_early(alloc, boot, kept, port, pieces)?;
    open_pool(alloc, boot, kept, port)?;
    accept_blocks(alloc, boot, kept, port, blocks, store)
}
