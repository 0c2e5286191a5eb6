//! The files of a run, read in their order.
ghost use Rattle.std.specs.Prelude.{◌≡◌, ◌≤◌, ◌<◌, [], ◌∷◌, ◌++◌, ℕ, true, false, List, None, Some, Ok, length, All, IfOk, IfErr, IfSome, OnOk};
ghost use Rattle.std.specs.List.{list_all};
ghost use Rattle.std.specs.Option.{option_map, option_to_list};
ghost use Rattle.event_core.specs.Given.{FitsGiven};
ghost use Rattle.event_core.specs.Map.{MapRules};
ghost use Rattle.event_core.specs.Table.{FitsTable, bad_unit};
ghost use Rattle.efi_map.specs.MapFile.{map_of};
ghost use Rattle.block_laws.specs.Runnable.{IsRunnable};
ghost use Rattle.block_laws.specs.Unconverting.{ConvertsNothing};
ghost use Rattle.guest_base.specs.declared.memory.CpuNo.{CpuNo as Cpu};
ghost use Rattle.guest_script.specs.Order.{order_in, ReadableOrder};
ghost use Rattle.guest_script.specs.Script.{script_of};
ghost use Rattle.guest_words.specs.Views.{seen};
ghost use Rattle.guest_words.specs.Words.{cpus_in};
ghost use Rattle.unaccepted_bitmap.specs.TableFile.{table_of};
ghost use Rattle.guest_input.specs.Causes.{limit_of, map_cause, order_cause, script_cause, IsGood, IsMapOf};
ghost use Rattle.guest_input.specs.Asked.{all_names};
ghost use Rattle.guest_input.specs.Files.{AreGood, AreScriptsOf, IsGiven, IsOrderOf, IsScriptOf, IsTableOf};
ghost use Rattle.guest_input.specs.Reading.{reading};
ghost use Rattle.guest_input.specs.Runnable.{is_runnable};
ghost use Rattle.guest_input.specs.Stopping.{AsksOne, content_by, FindsBy, StopsAt, StopsAtOne, StopsAtTable, StopsReading};
ghost use Rattle.guest_input.specs.Stops.{name_of, IsNamed};

use crate::stop::{Cause, InputFile, Stop, name_in};
use efi_map::{MapFault, read_map};
use event_core::{Command, Order, Script, Scripts};
use guest_base::{Bytes, CpuNo};
use guest_io::{Files, ReadFault};
use guest_map::GuestMap;
use guest_script::{OrderFault, ScriptFault, read_order, read_script};
use guest_words::Names;
use std::alloc::Global;
use unaccepted_bitmap::{BadBit, Bitmap, TableFault, read_table};

/// What the files hold.
#[derive(Debug, Drop)]
pub struct Input {
    /// The order of the turns, where an argument names its file.
    pub order: Option<Order>,
    pub map: GuestMap,
    /// The table of an earlier kernel, where an argument names its file.
    pub table: Option<Bitmap>,
    /// The scripts, in the order of their processors.
    pub scripts: Scripts,
}

/// All bytes of a file, which are within its limit.
fn read_file<F: Files>(
    alloc: Global,
    files: &mut F,
    names: &Names<'_>,
    file: InputFile,
) -> Result<Bytes, Stop>
    ensures whole { IfOk result (λ bytes. (content : List ℕ)
        → F.holds files.old (name_of (seen names.now) file) ≡ Some content → bytes ≡ content) }
    ensures within { IfOk result (λ bytes. length bytes ≤ limit_of file) }
    ensures stop { IfErr result (λ stop. StopsAt
        (reading F.holds F.asked F.faults files.old files.new) (seen names.now) file stop) }
    ensures asked { OnOk result (F.asked files.new
        ≡ F.asked files.old ++ name_of (seen names.now) file ∷ []) }
    ensures asks { IfErr result (λ stop. AsksOne (name_of (seen names.now) file)
        (reading F.holds F.asked F.faults files.old files.new) stop) }
    ensures same_files { F.holds files.new ≡ F.holds files.old }
    ensures faults_kept { F.faults files.old ≤ F.faults files.new }
{
    match files.read_all(alloc, name_in(names, file), file.limit()) {
        Ok(bytes) => Ok(bytes),
        Err(ReadFault::Failed) => Err(Stop::NotRead(file)),
        Err(ReadFault::TooLong) => Err(Stop::Refused(file, Cause::TooLong)),
        Err(ReadFault::NoMemory) => Err(Stop::NoMemory),
    }
}

/// The order of a file's bytes, for this many processors.
fn order_in(alloc: Global, bytes: &[u8], cpus: u32) -> Result<Order, Stop>
    ensures order { IfOk result (λ order. order_in cpus bytes.now ≡ Ok order) }
    ensures readable { IfOk result (λ order. ReadableOrder cpus order) }
    ensures fault { IfErr result (λ stop.
        FindsBy InputFile.Order (order_cause (order_in cpus bytes.now)) stop) }
{
    match read_order(alloc, bytes, cpus) {
        Ok(order) => Ok(order),
        Err(OrderFault::NoMemory) => Err(Stop::NoMemory),
        Err(fault) => Err(Stop::Refused(InputFile::Order, Cause::OfOrder(fault))),
    }
}

/// The map of a file's bytes.
fn map_in(alloc: Global, bytes: &[u8]) -> Result<GuestMap, Stop>
    ensures map { IfOk result (λ map. map_of bytes.now ≡ Ok map) }
    ensures rules { IfOk result (λ map. MapRules map.descriptors map.hosts) }
    ensures fault { IfErr result (λ stop.
        FindsBy InputFile.Map (map_cause (map_of bytes.now)) stop) }
{
    match read_map(alloc, bytes) {
        Ok(map) => Ok(map),
        Err(MapFault::NoMemory) => Err(Stop::NoMemory),
        Err(fault) => Err(Stop::Refused(InputFile::Map, Cause::OfMap(fault))),
    }
}

/// A table, where it fits the map.
fn fitting(table: Bitmap, map: &GuestMap) -> Result<Bitmap, Stop>
    requires rules { MapRules map.now.descriptors map.now.hosts }
    ensures same { IfOk result (λ fitting. fitting ≡ table) }
    ensures fits { OnOk result (FitsTable map.now.descriptors table) }
    ensures fault { IfErr result (λ stop. FindsBy InputFile.Table
        (option_map Cause.BadBit (bad_unit map.now.descriptors table)) stop) }
{
    match table.fit(map) {
        Ok(table) => Ok(table),
        Err(BadBit(unit)) => Err(Stop::Refused(InputFile::Table, Cause::BadBit(unit))),
    }
}

/// The table of a file's bytes, which fits the map.
fn table_in(alloc: Global, bytes: &[u8], map: &GuestMap) -> Result<Bitmap, Stop>
    requires rules { MapRules map.now.descriptors map.now.hosts }
    ensures table { IfOk result (λ table. table_of bytes.now ≡ Ok table) }
    ensures fits { IfOk result (λ table. FitsTable map.now.descriptors table) }
    ensures fault { IfErr result (λ stop.
        FindsBy InputFile.Table (content_by map.now.descriptors bytes.now) stop) }
{
    match read_table(alloc, bytes) {
        Ok(table) => fitting(table, map),
        Err(TableFault::NoMemory) => Err(Stop::NoMemory),
        Err(fault) => Err(Stop::Refused(InputFile::Table, Cause::OfTable(fault))),
    }
}

/// Whether a command can be run today: all but those that convert a block.
fn is_runnable(command: &Command) -> bool
    ensures { result ≡ is_runnable command.now }
{
    !matches!(
        command,
        Command::Share { .. } | Command::Private { .. } | Command::Giveback { .. }
    )
}

/// Whether all commands can be run today.
fn are_runnable(commands: &[Command]) -> bool
    ensures { result ≡ list_all is_runnable commands.now }
{
    commands.iter().all(is_runnable)
}

/// The script of a processor, where it can be run today.
#[tactic(auto, using(crate::proofs::RunnableLemmas::all_convert_nothing))]
fn runnable(script: Script, cpu: CpuNo) -> Result<Script, Stop>
    ensures same { IfOk result (λ runnable. runnable ≡ script) }
    ensures runnable { OnOk result (list_all is_runnable script ≡ true) }
    ensures unconverting { OnOk result (All ConvertsNothing script) }
    ensures later { IfErr result (λ stop. (stop ≡ Stop.Refused (InputFile.Script cpu) Cause.Later)
        × (list_all is_runnable script ≡ false)) }
{
    if are_runnable(script.as_slice()) {
        Ok(script)
    } else {
        Err(Stop::Refused(InputFile::Script(cpu), Cause::Later))
    }
}

/// The script of a processor, of its file's bytes.
fn script_in(alloc: Global, bytes: &[u8], cpu: CpuNo) -> Result<Script, Stop>
    ensures script { IfOk result (λ script. script_of bytes.now ≡ Ok script) }
    ensures good { OnOk result (script_cause (script_of bytes.now) ≡ None) }
    ensures runnable { IfOk result (λ script. IsRunnable script) }
    ensures fault { IfErr result (λ stop.
        FindsBy (InputFile.Script cpu) (script_cause (script_of bytes.now)) stop) }
{
    match read_script(alloc, bytes) {
        Ok(script) => runnable(script, cpu),
        Err(ScriptFault::NoMemory) => Err(Stop::NoMemory),
        Err(fault) => Err(Stop::Refused(InputFile::Script(cpu), Cause::OfScript(fault))),
    }
}

/// Reads the order file, which an argument names.
fn read_named_order<F: Files>(
    alloc: Global,
    files: &mut F,
    names: &Names<'_>,
) -> Result<Order, Stop>
    ensures order { IfOk result (λ order. (bytes : List ℕ)
        → F.holds files.old (name_of (seen names.now) InputFile.Order) ≡ Some bytes
        → order_in (cpus_in (seen names.now)) bytes ≡ Ok order) }
    ensures readable { IfOk result (λ order. ReadableOrder (cpus_in (seen names.now)) order) }
    ensures good { OnOk result (IsGood (F.holds files.old) (seen names.now) InputFile.Order) }
    ensures stop { IfErr result (λ stop. StopsAt
        (reading F.holds F.asked F.faults files.old files.new) (seen names.now)
        InputFile.Order stop) }
    ensures asked { OnOk result (F.asked files.new
        ≡ F.asked files.old ++ name_of (seen names.now) InputFile.Order ∷ []) }
    ensures asks { IfErr result (λ stop. AsksOne (name_of (seen names.now) InputFile.Order)
        (reading F.holds F.asked F.faults files.old files.new) stop) }
    ensures same_files { F.holds files.new ≡ F.holds files.old }
    ensures faults_kept { F.faults files.old ≤ F.faults files.new }
{
    let bytes = read_file(alloc, files, names, InputFile::Order)?;
    order_in(alloc, bytes.as_slice(), names.cpus())
}

/// Reads the order file, where an argument names it.
fn read_given_order<F: Files>(
    alloc: Global,
    files: &mut F,
    names: &Names<'_>,
) -> Result<Option<Order>, Stop>
    ensures order { IfOk result (λ order.
        IsOrderOf (F.holds files.old) (seen names.now) order) }
    ensures readable { IfOk result (λ order.
        IfSome order (λ turns. ReadableOrder (cpus_in (seen names.now)) turns)) }
    ensures good { OnOk result (IsGood (F.holds files.old) (seen names.now) InputFile.Order) }
    ensures is_named { IfErr result (λ _. IsNamed (seen names.now) InputFile.Order) }
    ensures stop { IfErr result (λ stop. StopsAt
        (reading F.holds F.asked F.faults files.old files.new) (seen names.now)
        InputFile.Order stop) }
    ensures asked { OnOk result (F.asked files.new
        ≡ F.asked files.old ++ option_to_list (seen names.now).order) }
    ensures asks { IfErr result (λ stop. AsksOne (name_of (seen names.now) InputFile.Order)
        (reading F.holds F.asked F.faults files.old files.new) stop) }
    ensures same_files { F.holds files.new ≡ F.holds files.old }
    ensures faults_kept { F.faults files.old ≤ F.faults files.new }
{
    match names.order {
        None => Ok(None),
        Some(_) => Ok(Some(read_named_order(alloc, files, names)?)),
    }
}

/// Reads the map file.
fn read_guest_map<F: Files>(
    alloc: Global,
    files: &mut F,
    names: &Names<'_>,
) -> Result<GuestMap, Stop>
    ensures good { OnOk result (IsGood (F.holds files.old) (seen names.now) InputFile.Map) }
    ensures map { IfOk result (λ map. IsMapOf (F.holds files.old) (seen names.now) map) }
    ensures rules { IfOk result (λ map. MapRules map.descriptors map.hosts) }
    ensures stop { IfErr result (λ stop. StopsAt
        (reading F.holds F.asked F.faults files.old files.new) (seen names.now)
        InputFile.Map stop) }
    ensures asked { OnOk result (F.asked files.new
        ≡ F.asked files.old ++ (seen names.now).map ∷ []) }
    ensures asks { IfErr result (λ stop. AsksOne (seen names.now).map
        (reading F.holds F.asked F.faults files.old files.new) stop) }
    ensures same_files { F.holds files.new ≡ F.holds files.old }
    ensures faults_kept { F.faults files.old ≤ F.faults files.new }
{
    let bytes = read_file(alloc, files, names, InputFile::Map)?;
    map_in(alloc, bytes.as_slice())
}

/// Reads the table file, which an argument names.
fn read_named_table<F: Files>(
    alloc: Global,
    files: &mut F,
    names: &Names<'_>,
    map: &GuestMap,
) -> Result<Bitmap, Stop>
    requires rules { MapRules map.now.descriptors map.now.hosts }
    ensures table { IfOk result (λ table. (bytes : List ℕ)
        → F.holds files.old (name_of (seen names.now) InputFile.Table) ≡ Some bytes
        → table_of bytes ≡ Ok table) }
    ensures fits { IfOk result (λ table. FitsTable map.now.descriptors table) }
    ensures short { OnOk result ((bytes : List ℕ)
        → F.holds files.old (name_of (seen names.now) InputFile.Table) ≡ Some bytes
        → length bytes ≤ limit_of InputFile.Table) }
    ensures stop { IfErr result (λ stop. StopsAtTable map.now.descriptors
        (reading F.holds F.asked F.faults files.old files.new) (seen names.now) stop) }
    ensures asked { OnOk result (F.asked files.new
        ≡ F.asked files.old ++ name_of (seen names.now) InputFile.Table ∷ []) }
    ensures asks { IfErr result (λ stop. AsksOne (name_of (seen names.now) InputFile.Table)
        (reading F.holds F.asked F.faults files.old files.new) stop) }
    ensures same_files { F.holds files.new ≡ F.holds files.old }
    ensures faults_kept { F.faults files.old ≤ F.faults files.new }
{
    let bytes = read_file(alloc, files, names, InputFile::Table)?;
    table_in(alloc, bytes.as_slice(), map)
}

/// Reads the table file, where an argument names it.
fn read_given_table<F: Files>(
    alloc: Global,
    files: &mut F,
    names: &Names<'_>,
    map: &GuestMap,
) -> Result<Option<Bitmap>, Stop>
    requires rules { MapRules map.now.descriptors map.now.hosts }
    ensures table { IfOk result (λ table.
        IsTableOf (F.holds files.old) (seen names.now).table table) }
    ensures fits { IfOk result (λ table. FitsGiven map.now.descriptors table) }
    ensures good { OnOk result (IsMapOf (F.holds files.old) (seen names.now) map.now
        → IsGood (F.holds files.old) (seen names.now) InputFile.Table) }
    ensures is_named { IfErr result (λ _. IsNamed (seen names.now) InputFile.Table) }
    ensures stop { IfErr result (λ stop. StopsAtTable map.now.descriptors
        (reading F.holds F.asked F.faults files.old files.new) (seen names.now) stop) }
    ensures asked { OnOk result (F.asked files.new
        ≡ F.asked files.old ++ option_to_list (seen names.now).table) }
    ensures asks { IfErr result (λ stop. AsksOne (name_of (seen names.now) InputFile.Table)
        (reading F.holds F.asked F.faults files.old files.new) stop) }
    ensures same_files { F.holds files.new ≡ F.holds files.old }
    ensures faults_kept { F.faults files.old ≤ F.faults files.new }
{
    match names.table {
        None => Ok(None),
        Some(_) => Ok(Some(read_named_table(alloc, files, names, map)?)),
    }
}

/// Reads the script file of a processor.
fn read_commands<F: Files>(
    alloc: Global,
    files: &mut F,
    names: &Names<'_>,
    cpu: CpuNo,
) -> Result<Script, Stop>
    requires cpu { cpu.0 < cpus_in (seen names.now) }
    ensures good { OnOk result
        (IsGood (F.holds files.old) (seen names.now) (InputFile.Script cpu)) }
    ensures script { IfOk result (λ script. IsScriptOf (F.holds files.old)
        (name_of (seen names.now) (InputFile.Script cpu)) script) }
    ensures runnable { IfOk result (λ script. IsRunnable script) }
    ensures stop { IfErr result (λ stop. StopsAt
        (reading F.holds F.asked F.faults files.old files.new) (seen names.now)
        (InputFile.Script cpu) stop) }
    ensures asked { OnOk result (F.asked files.new
        ≡ F.asked files.old ++ name_of (seen names.now) (InputFile.Script cpu) ∷ []) }
    ensures asks { IfErr result (λ stop. AsksOne (name_of (seen names.now) (InputFile.Script cpu))
        (reading F.holds F.asked F.faults files.old files.new) stop) }
    ensures same_files { F.holds files.new ≡ F.holds files.old }
    ensures faults_kept { F.faults files.old ≤ F.faults files.new }
{
    let bytes = read_file(alloc, files, names, InputFile::Script(cpu))?;
    script_in(alloc, bytes.as_slice(), cpu)
}

/// Reads the script files, in the order of their processors.
fn read_scripts<F: Files>(alloc: Global, files: &mut F, names: &Names<'_>) -> Result<Scripts, Stop>
    ensures good { OnOk result ((cpu : Cpu) → cpu.0 < cpus_in (seen names.now)
        → IsGood (F.holds files.old) (seen names.now) (InputFile.Script cpu)) }
    ensures scripts { IfOk result (λ scripts.
        AreScriptsOf (F.holds files.old) (seen names.now) scripts) }
    ensures runnable { IfOk result (λ scripts. All IsRunnable scripts) }
    ensures stop { IfErr result (λ stop. StopsAtOne
        (reading F.holds F.asked F.faults files.old files.new) (seen names.now) stop) }
    ensures asked { OnOk result (F.asked files.new
        ≡ F.asked files.old ++ (seen names.now).scripts) }
    ensures same_files { F.holds files.new ≡ F.holds files.old }
    ensures faults_kept { F.faults files.old ≤ F.faults files.new }
{
    let mut scripts = Scripts::new(alloc);
    for cpu in 0..names.cpus() {
        let script = read_commands(alloc, files, names, CpuNo(cpu))?;
        scripts.try_push(script)?;
    }
    Ok(scripts)
}

/// Reads each file: the order where one is named, the map, the table where one is named, and the scripts in the order of their
/// processors. Each is checked before the next is read.
///
/// A stop is `Refused` or `NotRead`, with the file, or `NoMemory`; no file after the one that it names is asked for.
pub fn read_input<F: Files>(alloc: Global, files: &mut F, names: &Names<'_>) -> Result<Input, Stop>
    ensures good { OnOk result (AreGood (F.holds files.old) (seen names.now)) }
    ensures order { IfOk result (λ input.
        IsOrderOf (F.holds files.old) (seen names.now) input.order) }
    ensures readable { IfOk result (λ input.
        IfSome input.order (λ turns. ReadableOrder (cpus_in (seen names.now)) turns)) }
    ensures given { IfOk result (λ input.
        IsGiven (F.holds files.old) (seen names.now) input.map input.table) }
    ensures rules { IfOk result (λ input. MapRules input.map.descriptors input.map.hosts) }
    ensures scripts { IfOk result (λ input.
        AreScriptsOf (F.holds files.old) (seen names.now) input.scripts) }
    ensures runnable { IfOk result (λ input. All IsRunnable input.scripts) }
    ensures asked { OnOk result
        (F.asked files.new ≡ F.asked files.old ++ all_names (seen names.now)) }
    ensures stop { IfErr result (λ stop. StopsReading
        (reading F.holds F.asked F.faults files.old files.new) (seen names.now) stop) }
    ensures same_files { F.holds files.new ≡ F.holds files.old }
    ensures faults_kept { F.faults files.old ≤ F.faults files.new }
{
    let order = read_given_order(alloc, files, names)?;
    let map = read_guest_map(alloc, files, names)?;
    let table = read_given_table(alloc, files, names, &map)?;
    let scripts = read_scripts(alloc, files, names)?;
    Ok(Input {
        order,
        map,
        table,
        scripts,
    })
}
