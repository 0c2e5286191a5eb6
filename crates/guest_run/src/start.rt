//! What a run begins with: its files, and the world that boot makes of them.
ghost use Rattle.std.specs.Prelude.{◌≡◌, ◌<◌, ◌≤◌, ◌++◌, [], length, All, IfOk, IfErr, OnOk};
ghost use Rattle.event_core.specs.Boot.{BootRight};
ghost use Rattle.event_core.specs.Given.{FitsGiven};
ghost use Rattle.event_core.specs.Map.{MapRules};
ghost use Rattle.block_laws.specs.Runnable.{IsRunnable};
ghost use Rattle.guest_base.specs.declared.limits.TheConstants.{MAX_CPUS};
ghost use Rattle.guest_boot.specs.Placing.{MayAsk};
ghost use Rattle.guest_boot.specs.Worlds.{WorldStands};
ghost use Rattle.guest_input.specs.Asked.{all_names};
ghost use Rattle.guest_input.specs.Files.{AreGood};
ghost use Rattle.guest_input.specs.Reading.{reading};
ghost use Rattle.guest_words.specs.Views.{seen};
ghost use Rattle.guest_words.specs.Words.{KeepsLimits};
ghost use Rattle.guest_runs.specs.Asking.{asking, first_made, PortsKept};
ghost use Rattle.guest_runs.specs.Beginning.{Begins};
ghost use Rattle.guest_run.specs.Boots.{BootEnds};
ghost use Rattle.guest_run.specs.Starting.{Starts};
ghost use Rattle.guest_run.specs.Stopping.{Stopped};

use event_core::{Order, Scripts};
use guest_boot::{BootFault, World, boot};
use guest_input::{Input, Stop, read_input};
use guest_io::Files;
use guest_map::GuestMap;
use guest_words::Names;
use page_module::Port;
use std::alloc::Global;
use unaccepted_bitmap::Bitmap;

/// What a run begins with.
#[derive(Drop)]
pub(crate) struct Start {
    pub(crate) world: World,
    pub(crate) scripts: Scripts,
    /// The order of the turns; none for a run on threads.
    pub(crate) order: Option<Order>,
}

/// Boots the map on the first port, with the table where there is one: with a pool for which this many slots and areas are asked, and
/// with this many processors.
fn boot_on_first<P: Port>(
    alloc: Global,
    map: &GuestMap,
    table: Option<Bitmap>,
    slots: u32,
    areas: u32,
    cpus: u32,
    ports: &mut Vec<P>,
) -> Result<World, Stop>
    requires rules { MapRules map.now.descriptors map.now.hosts }
    requires fits { FitsGiven map.now.descriptors table }
    requires asked { MayAsk slots areas }
    requires few { cpus ≤ MAX_CPUS }
    requires some { 0 < length ports.old.items }
    requires unmade { All (λ port. P.made port ≡ []) ports.old.items }
    ensures right { IfOk result (λ w.
        BootRight map.now.descriptors map.now.hosts table slots areas cpus w.boot) }
    ensures stands { IfOk result (λ w. WorldStands w) }
    ensures made { IfOk result (λ w. first_made P.made ports.new.items ≡ w.boot.calls) }
    ensures stop { IfErr result (λ stop. BootEnds
        (asking P.made P.faults P.never_fails ports.old.items ports.new.items)
        map.now table slots areas cpus stop) }
    ensures kept { PortsKept 1
        (asking P.made P.faults P.never_fails ports.old.items ports.new.items) }
{
    match boot(alloc, map, table, slots, areas, cpus, &mut ports[0]) {
        Ok(world) => Ok(world),
        Err(BootFault::PoolNoRoom) => Err(Stop::PoolNoRoom),
        Err(BootFault::Module(_)) => Err(Stop::Module),
        Err(BootFault::NoMemory) => Err(Stop::NoMemory),
    }
}

/// Boots what the files hold, with a processor for each script.
fn boot_input<P: Port>(
    alloc: Global,
    input: Input,
    slots: u32,
    areas: u32,
    ports: &mut Vec<P>,
) -> Result<Start, Stop>
    requires rules { MapRules input.map.descriptors input.map.hosts }
    requires fits { FitsGiven input.map.descriptors input.table }
    requires asked { MayAsk slots areas }
    requires some { 0 < length input.scripts }
    requires few { length input.scripts ≤ MAX_CPUS }
    requires runnable { All IsRunnable input.scripts }
    requires ports { MAX_CPUS ≤ length ports.old.items }
    requires unmade { All (λ port. P.made port ≡ []) ports.old.items }
    ensures right { IfOk result (λ start. BootRight input.map.descriptors input.map.hosts
        input.table slots areas (length input.scripts) start.world.boot) }
    ensures scripts { IfOk result (λ start. start.scripts ≡ input.scripts) }
    ensures order { IfOk result (λ start. start.order ≡ input.order) }
    ensures begins { IfOk result (λ start.
        Begins P.made start.world input.scripts ports.new.items) }
    ensures stop { IfErr result (λ stop. BootEnds
        (asking P.made P.faults P.never_fails ports.old.items ports.new.items)
        input.map input.table slots areas (length input.scripts) stop) }
    ensures kept { PortsKept 1
        (asking P.made P.faults P.never_fails ports.old.items ports.new.items) }
{
    let Input {
        order,
        map,
        table,
        scripts,
    } = input;
    let cpus = scripts.len() as u32;
    let world = boot_on_first(alloc, &map, table, slots, areas, cpus, ports)?;
    Ok(Start {
        world,
        scripts,
        order,
    })
}

/// Reads the files and boots the map, with the pool that is asked for and a processor for each script. It ends before that where a file
/// is refused or couldn't be read, where no range of memory holds the pool, where boot stops, or where memory runs out.
pub(crate) fn begin<F: Files, P: Port>(
    alloc: Global,
    names: &Names<'_>,
    files: &mut F,
    ports: &mut Vec<P>,
) -> Result<Start, Stop>
    requires limits { KeepsLimits (seen names.now) }
    requires ports { MAX_CPUS ≤ length ports.old.items }
    requires unmade { All (λ port. P.made port ≡ []) ports.old.items }
    ensures good { OnOk result (AreGood (F.holds files.old) (seen names.now)) }
    ensures asked { OnOk result (F.asked files.new
        ≡ F.asked files.old ++ all_names (seen names.now)) }
    ensures starts { IfOk result (λ start. Starts (F.holds files.old)
        (asking P.made P.faults P.never_fails ports.old.items ports.new.items)
        (seen names.now) start) }
    ensures stop { IfErr result (λ stop. Stopped
        (reading F.holds F.asked F.faults files.old files.new)
        (asking P.made P.faults P.never_fails ports.old.items ports.new.items)
        (seen names.now) stop) }
    ensures kept { PortsKept 1
        (asking P.made P.faults P.never_fails ports.old.items ports.new.items) }
{
    let input = read_input(alloc, files, names)?;
    boot_input(alloc, input, names.slots, names.areas, ports)
}
