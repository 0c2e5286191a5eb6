//! Scripts.
ghost use Rattle.std.specs.Prelude.{◌≡◌, ◌+◌, ◌≤◌, ◌∷◌, length, sum_by, MatchResult, IfOk, OnOk, IfErr, Err};
ghost use Rattle.std.specs.Str.{is_utf8};
ghost use Rattle.event_core.specs.ReadableScript.{bytes_named, ReadableScript};
ghost use Rattle.guest_base.specs.declared.limits.TheConstants.{MAX_NAMED_BYTES};
ghost use Rattle.guest_script.specs.Words.{texts};
ghost use Rattle.guest_script.specs.Answers.{LineFails};
ghost use Rattle.guest_script.specs.Script.{is_comment, line_words, with_words, with_line, script_of, ScriptFails, ScriptGives, fault_at};

use crate::command::read_command;
use crate::fault::{LineFault, ScriptFault, Why};
use crate::lines::split_once;
use crate::words::words;
use event_core::{Command, Script};
use guest_base::Items;
use guest_base::limits::{MAX_COMMANDS, MAX_LINE_BYTES, MAX_NAMED_BYTES};
use std::alloc::Global;

/// Reads a script. Lines are ended by line feeds, words parted by spaces and tabs, and a line without words
/// or whose first word begins with `#` is skipped. The fault is the first one in the order of the lines.
/// A script has at most 2,048 commands, which name at most 4,194,304 bytes together.
pub fn read_script(alloc: Global, bytes: &[u8]) -> Result<Script, ScriptFault>
    ensures script { ScriptGives result (script_of bytes.now) }
    ensures readable { IfOk result (λ script. ReadableScript script) }
{
    let mut commands = Vec::new(alloc);
    let mut named = 0;
    let mut number = 1;
    let mut rest = bytes;
    while let Some((line, after)) = split_once(rest, b'\n') {
        read_line(alloc, number, line, &mut commands, &mut named)?;
        number += 1;
        rest = after;
    }
    read_line(alloc, number, rest, &mut commands, &mut named)?;
    Ok(Items::from_vec(commands))
}

#[tactic(auto, unfolding(crate::specs::Script::with_line))]
fn read_line(
    alloc: Global,
    number: u64,
    line: &[u8],
    commands: &mut Vec<Command>,
    named: &mut u64,
) -> Result<(), ScriptFault>
    requires sum { named.old ≡ sum_by bytes_named commands.old.items }
    requires few { named.old ≤ MAX_NAMED_BYTES }
    ensures ok { OnOk result
        (with_line number commands.old.items line.now ≡ Ok commands.new.items) }
    ensures sum { OnOk result (named.new ≡ sum_by bytes_named commands.new.items) }
    ensures few { OnOk result (named.new ≤ MAX_NAMED_BYTES) }
    ensures err { IfErr result (λ fault.
        ScriptFails fault (with_line number commands.old.items line.now)) }
{
    match line_words(alloc, line) {
        Ok(words) => add_command(alloc, number, words.as_slice(), commands, named),
        Err(fault) => Err(fault_at(number, fault)),
    }
}

#[tactic(auto, unfolding(crate::specs::Script::line_words))]
fn line_words(alloc: Global, line: &[u8]) -> Result<Vec<&[u8]>, LineFault>
    ensures { MatchResult result
        (λ words. line_words line.now ≡ Ok (texts words.items))
        (λ fault. LineFails fault (line_words line.now)) }
{
    if line.len() as u64 > MAX_LINE_BYTES {
        return Err(LineFault::Why(Why::TooLong));
    }
    if !is_text(line) {
        return Err(LineFault::Why(Why::NotUtf8));
    }
    let words = words(alloc, line)?;
    if is_comment(words.as_slice()) {
        return Ok(Vec::new(alloc));
    }
    Ok(words)
}

fn is_text(line: &[u8]) -> bool
    ensures { result ≡ is_utf8 line.now }
{
    std::str::from_utf8(line).is_ok()
}

fn is_comment(words: &[&[u8]]) -> bool
    ensures { result ≡ is_comment (texts words.now) }
{
    match words {
        [[first, ..], ..] => *first == b'#',
        _ => false,
    }
}

#[tactic(auto, unfolding(crate::specs::Script::with_words))]
fn add_command(
    alloc: Global,
    number: u64,
    words: &[&[u8]],
    commands: &mut Vec<Command>,
    named: &mut u64,
) -> Result<(), ScriptFault>
    requires sum { named.old ≡ sum_by bytes_named commands.old.items }
    requires few { named.old ≤ MAX_NAMED_BYTES }
    ensures ok { OnOk result
        (with_words number commands.old.items (texts words.now) ≡ Ok commands.new.items) }
    ensures sum { OnOk result (named.new ≡ sum_by bytes_named commands.new.items) }
    ensures few { OnOk result (named.new ≤ MAX_NAMED_BYTES) }
    ensures err { IfErr result (λ fault.
        ScriptFails fault (with_words number commands.old.items (texts words.now))) }
{
    let [first, words @ ..] = words else {
        return Ok(());
    };
    if commands.len() as u64 >= MAX_COMMANDS {
        return Err(ScriptFault::TooManyCommands);
    }
    let command = match read_command(alloc, first, words) {
        Ok(command) => command,
        Err(fault) => return Err(fault_at(number, fault)),
    };
    let bytes = bytes_named(&command);
    if bytes > MAX_NAMED_BYTES - *named {
        return Err(ScriptFault::TooManyBytes);
    }
    commands.push(command)?;
    *named += bytes;
    Ok(())
}

fn fault_at(number: u64, fault: LineFault) -> ScriptFault
    ensures { result ≡ fault_at number fault }
{
    match fault {
        LineFault::Why(why) => ScriptFault::Line(number, why),
        LineFault::NoMemory => ScriptFault::NoMemory,
    }
}

/// The bytes that a command names: its length, or the bytes of its digits.
fn bytes_named(command: &Command) -> u64
    ensures { result ≡ bytes_named command.now }
{
    match command {
        Command::Read { len, .. }
        | Command::Fill { len, .. }
        | Command::Map { len, .. }
        | Command::SyncDev { len, .. }
        | Command::SyncCpu { len, .. }
        | Command::DRead { len, .. }
        | Command::HostRead { len, .. } => *len,
        Command::Write { hex, .. } | Command::DWrite { hex, .. } | Command::HostWrite { hex, .. } =>
            hex.len(),
        Command::Alloc { .. }
        | Command::Free { .. }
        | Command::Accept { .. }
        | Command::Query { .. }
        | Command::Load { .. }
        | Command::Share { .. }
        | Command::Private { .. }
        | Command::Giveback { .. }
        | Command::Unmap { .. } => 0,
    }
}
