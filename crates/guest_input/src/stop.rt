//! Why a run ends before its text.
ghost use Rattle.std.specs.Prelude.{◌≡◌, ◌≢◌, string_bytes, slice_get, IfOk};
ghost use Rattle.guest_input.specs.declared.stop.Stop.TheVariants.{NoMemory};
ghost use Rattle.guest_input.specs.Stops.{name_of, order_fault_text, map_fault_text, table_fault_text, script_fault_text, why_text, cause_text, refused_line, not_read_line, status_of, stop_line};
ghost use Rattle.guest_input.specs.Causes.{limit_of};
ghost use Rattle.guest_words.specs.Views.{seen, text_in};

use efi_map::MapFault;
use guest_base::CpuNo;
use guest_base::limits::{MAX_MAP_BYTES, MAX_ORDER_BYTES, MAX_SCRIPT_BYTES};
use guest_script::{OrderFault, ScriptFault, Why};
use guest_words::Names;
use std::alloc::{AllocError, Global};
use unaccepted_bitmap::TableFault;

/// The most bytes of a table file: its fields, and a bit for each page of memory.
const MAX_TABLE_BYTES: u64 = 33_554_456;

/// A file that the arguments name.
#[derive(Clone, Copy, Debug, PartialEq, Eq)]
pub enum InputFile {
    Order,
    Map,
    Table,
    /// The script of this processor.
    Script(CpuNo),
}

/// Why a file is refused.
#[derive(Clone, Copy, Debug, PartialEq, Eq)]
pub enum Cause {
    /// It has more bytes than its limit.
    TooLong,
    /// It is a script with a command that isn't run today.
    Later,
    /// It isn't an order file for as many processors as there are scripts.
    OfOrder(OrderFault),
    /// It isn't a map file.
    OfMap(MapFault),
    /// It isn't a table file.
    OfTable(TableFault),
    /// This unit's bit is set in the table, and the unit doesn't lie in unaccepted memory.
    BadBit(u64),
    /// It isn't a script file.
    OfScript(ScriptFault),
}

/// Why a run ends before its text.
#[derive(Clone, Copy, Debug, PartialEq, Eq)]
pub enum Stop {
    /// The file is refused; all files before it are read and good.
    Refused(InputFile, Cause),
    /// The file couldn't be read.
    NotRead(InputFile),
    /// No range of memory holds the pool; all files are read and good.
    PoolNoRoom,
    /// Boot stopped at a page, where the secure module failed.
    Module,
    /// Memory ran out.
    NoMemory,
}

impl InputFile {
    /// The most bytes that the file may have.
    pub(crate) fn limit(self) -> u64
        ensures { result ≡ limit_of self }
    {
        match self {
            InputFile::Order => MAX_ORDER_BYTES,
            InputFile::Map => MAX_MAP_BYTES,
            InputFile::Table => MAX_TABLE_BYTES,
            InputFile::Script(_) => MAX_SCRIPT_BYTES,
        }
    }
}

/// The name of a file. That of one that no argument names is empty.
pub(crate) fn name_in<'a>(names: &Names<'a>, file: InputFile) -> &'a str
    ensures { result.now ≡ name_of (seen names.now) file }
{
    let name = match file {
        InputFile::Order => names.order,
        InputFile::Map => Some(names.map),
        InputFile::Table => names.table,
        InputFile::Script(cpu) => script_name(names, cpu),
    };
    name.unwrap_or("")
}

/// The name of a processor's script.
fn script_name<'a>(names: &Names<'a>, cpu: CpuNo) -> Option<&'a str>
    ensures { text_in result ≡ slice_get (seen names.now).scripts cpu.0 }
{
    names.scripts.as_slice().get(cpu.0 as usize).copied()
}

impl Stop {
    /// The status that the program ends with.
    pub fn status(self) -> u8
        ensures { result ≡ status_of self }
    {
        match self {
            Stop::Refused(_, _) | Stop::PoolNoRoom => 3,
            Stop::NotRead(_) => 4,
            Stop::Module => 7,
            Stop::NoMemory => 6,
        }
    }
}

impl From<AllocError> for Stop {
    ghost from_gives = { λ _ e. e ≡ NoMemory };

    fn from(_e: AllocError) -> Stop {
        Stop::NoMemory
    }
}

/// What is wrong with an order file.
fn print_order_fault(alloc: Global, fault: OrderFault) -> Result<String, AllocError>
    ensures { IfOk result (λ text. string_bytes text ≡ order_fault_text fault) }
{
    match fault {
        OrderFault::Word(number) => format!(in alloc; "word {number}"),
        OrderFault::TooMany => String::from_str(alloc, "too many"),
        OrderFault::NoMemory => String::from_str(alloc, "memory"),
    }
}

/// What is wrong with a map file.
fn print_map_fault(alloc: Global, fault: MapFault) -> Result<String, AllocError>
    ensures { IfOk result (λ text. string_bytes text ≡ map_fault_text fault) }
{
    match fault {
        MapFault::Short(length) => format!(in alloc; "short {length}"),
        MapFault::BadMagic => String::from_str(alloc, "magic"),
        MapFault::BadSize(size) => format!(in alloc; "size {size}"),
        MapFault::BadVersion(version) => format!(in alloc; "version {version}"),
        MapFault::TooMany(count) => format!(in alloc; "count {count}"),
        MapFault::Unaligned(number) => format!(in alloc; "unaligned {number}"),
        MapFault::TooHigh(number) => format!(in alloc; "high {number}"),
        MapFault::Overlap(earlier, number) => format!(in alloc; "overlap {earlier} {number}"),
        MapFault::TooMuchRam => String::from_str(alloc, "ram"),
        MapFault::BadHost(number) => format!(in alloc; "host {number}"),
        MapFault::Trailing(place) => format!(in alloc; "trailing {place}"),
        MapFault::NoMemory => String::from_str(alloc, "memory"),
    }
}

/// What is wrong with a table file.
fn print_table_fault(alloc: Global, fault: TableFault) -> Result<String, AllocError>
    ensures { IfOk result (λ text. string_bytes text ≡ table_fault_text fault) }
{
    match fault {
        TableFault::Short(length) => format!(in alloc; "short {length}"),
        TableFault::BadVersion(version) => format!(in alloc; "version {version}"),
        TableFault::BadUnit(unit) => format!(in alloc; "unit {unit}"),
        TableFault::BadBase(base) => format!(in alloc; "base {base}"),
        TableFault::BadLength(length) => format!(in alloc; "length {length}"),
        TableFault::NoMemory => String::from_str(alloc, "memory"),
    }
}

/// What is wrong with a line of a script, in a word.
fn why_word(why: Why) -> &'static str
    ensures { result.now ≡ why_text why }
{
    match why {
        Why::Word => "word",
        Why::Number => "number",
        Why::Hex => "hex",
        Why::Arity => "arity",
        Why::TooLong => "long",
        Why::NotUtf8 => "utf8",
    }
}

/// What is wrong with a script file.
fn print_script_fault(alloc: Global, fault: ScriptFault) -> Result<String, AllocError>
    ensures { IfOk result (λ text. string_bytes text ≡ script_fault_text fault) }
{
    match fault {
        ScriptFault::Line(number, why) => {
            let word = why_word(why);
            format!(in alloc; "line {number} {word}")
        }
        ScriptFault::TooManyCommands => String::from_str(alloc, "too many lines"),
        ScriptFault::TooManyBytes => String::from_str(alloc, "too many bytes"),
        ScriptFault::NoMemory => String::from_str(alloc, "memory"),
    }
}

/// Why a file is refused, in words.
fn print_cause(alloc: Global, cause: Cause) -> Result<String, AllocError>
    ensures { IfOk result (λ text. string_bytes text ≡ cause_text cause) }
{
    match cause {
        Cause::TooLong => String::from_str(alloc, "too long"),
        Cause::Later => String::from_str(alloc, "later"),
        Cause::OfOrder(fault) => print_order_fault(alloc, fault),
        Cause::OfMap(fault) => print_map_fault(alloc, fault),
        Cause::OfTable(fault) => print_table_fault(alloc, fault),
        Cause::BadBit(unit) => format!(in alloc; "bit {unit}"),
        Cause::OfScript(fault) => print_script_fault(alloc, fault),
    }
}

/// The line of a stop. Where memory ran out there is none, and the answer is the same.
pub fn print_stop(alloc: Global, names: &Names<'_>, stop: Stop) -> Result<String, AllocError>
    ensures line { IfOk result (λ text. string_bytes text ≡ stop_line (seen names.now) stop) }
    ensures memory { IfOk result (λ _. stop ≢ Stop.NoMemory) }
{
    match stop {
        Stop::Refused(file, cause) => print_refused(alloc, name_in(names, file), cause),
        Stop::NotRead(file) => print_not_read(alloc, name_in(names, file)),
        Stop::PoolNoRoom => String::from_str(alloc, "refused: pool\n"),
        Stop::Module => String::from_str(alloc, "failed: boot\n"),
        Stop::NoMemory => Err(AllocError),
    }
}

/// The line of a refused file.
fn print_refused(alloc: Global, name: &str, cause: Cause) -> Result<String, AllocError>
    ensures { IfOk result (λ text. string_bytes text ≡ refused_line name.now cause) }
{
    let cause = print_cause(alloc, cause)?;
    format!(in alloc; "refused: {name}: {cause}\n")
}

/// The line of a file that couldn't be read.
fn print_not_read(alloc: Global, name: &str) -> Result<String, AllocError>
    ensures { IfOk result (λ text. string_bytes text ≡ not_read_line name.now) }
{
    format!(in alloc; "failed: read {name}\n")
}
