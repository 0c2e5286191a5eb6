//! Commands by their words.
ghost use Rattle.std.specs.Prelude.{◌≡◌};
ghost use Rattle.guest_script.specs.Words.{texts};
ghost use Rattle.guest_script.specs.Answers.{LineGives};
ghost use Rattle.guest_script.specs.Commands.{fill_of, map_of, unmap_of, memory_command, block_command, pool_command, command_of};

use crate::arguments::{
    byte_at, direction_at, mask_at, name_at, name_hex, name_offset, name_order, name_range,
    number_at, offset_hex, one_name, two_numbers,
};
use crate::fault::{LineFault, Why};
use crate::verb::{BlockVerb, MemoryVerb, PoolVerb, Verb, verb_of};
use event_core::Command;
use std::alloc::Global;

/// The command of a line's first word and the words after it.
#[tactic(auto, unfolding(crate::specs::Commands::command_at))]
pub(crate) fn read_command(
    alloc: Global,
    first: &[u8],
    words: &[&[u8]],
) -> Result<Command, LineFault>
    ensures { LineGives result (command_of first.now (texts words.now)) }
{
    match verb_of(first) {
        None => Err(LineFault::Why(Why::Word)),
        Some(Verb::Memory(verb)) => Ok(memory_command(verb, words)?),
        Some(Verb::Block(verb)) => block_command(alloc, verb, words),
        Some(Verb::Pool(verb)) => pool_command(alloc, verb, words),
    }
}

#[tactic(auto, unfolding(crate::specs::Commands::memory_command))]
fn memory_command(verb: MemoryVerb, words: &[&[u8]]) -> Result<Command, Why>
    ensures { result ≡ memory_command verb (texts words.now) }
{
    match verb {
        MemoryVerb::Alloc => {
            let (name, order) = name_order(words)?;
            Ok(Command::Alloc { name, order })
        }
        MemoryVerb::Free => {
            let name = one_name(words)?;
            Ok(Command::Free { name })
        }
        MemoryVerb::Accept => {
            let (start, len) = two_numbers(words)?;
            Ok(Command::Accept { start, len })
        }
        MemoryVerb::Query => {
            let (start, len) = two_numbers(words)?;
            Ok(Command::Query { start, len })
        }
        MemoryVerb::Share => {
            let name = one_name(words)?;
            Ok(Command::Share { name })
        }
        MemoryVerb::Private => {
            let name = one_name(words)?;
            Ok(Command::Private { name })
        }
        MemoryVerb::Giveback => {
            let name = one_name(words)?;
            Ok(Command::Giveback { name })
        }
    }
}

#[tactic(auto, unfolding(crate::specs::Commands::block_command))]
fn block_command(alloc: Global, verb: BlockVerb, words: &[&[u8]]) -> Result<Command, LineFault>
    ensures { LineGives result (block_command verb (texts words.now)) }
{
    match verb {
        BlockVerb::Read => {
            let (name, off, len) = name_range(words)?;
            Ok(Command::Read { name, off, len })
        }
        BlockVerb::Write => {
            let (name, off, hex) = name_hex(alloc, words)?;
            Ok(Command::Write { name, off, hex })
        }
        BlockVerb::Fill => Ok(fill(words)?),
        BlockVerb::Load => {
            let (name, off) = name_offset(words)?;
            Ok(Command::Load { name, off })
        }
    }
}

#[tactic(auto, unfolding(crate::specs::Commands::pool_command))]
fn pool_command(alloc: Global, verb: PoolVerb, words: &[&[u8]]) -> Result<Command, LineFault>
    ensures { LineGives result (pool_command verb (texts words.now)) }
{
    match verb {
        PoolVerb::Map => Ok(map(words)?),
        PoolVerb::SyncDev => {
            let (mapping, off, len) = name_range(words)?;
            Ok(Command::SyncDev { mapping, off, len })
        }
        PoolVerb::SyncCpu => {
            let (mapping, off, len) = name_range(words)?;
            Ok(Command::SyncCpu { mapping, off, len })
        }
        PoolVerb::Unmap => Ok(unmap(words)?),
        PoolVerb::DRead => {
            let (mapping, off, len) = name_range(words)?;
            Ok(Command::DRead { mapping, off, len })
        }
        PoolVerb::DWrite => {
            let (mapping, off, hex) = name_hex(alloc, words)?;
            Ok(Command::DWrite { mapping, off, hex })
        }
        PoolVerb::HostRead => {
            let (off, len) = two_numbers(words)?;
            Ok(Command::HostRead { off, len })
        }
        PoolVerb::HostWrite => {
            let (off, hex) = offset_hex(alloc, words)?;
            Ok(Command::HostWrite { off, hex })
        }
    }
}

/// fill NAME OFF LEN BYTE
#[tactic(auto, unfolding(crate::specs::Commands::fill_of))]
fn fill(words: &[&[u8]]) -> Result<Command, Why>
    ensures { result ≡ fill_of (texts words.now) }
{
    let [name, off, len, byte] = words else {
        return Err(Why::Arity);
    };
    let name = name_at(name)?;
    let off = number_at(off)?;
    let len = number_at(len)?;
    let byte = byte_at(byte)?;
    Ok(Command::Fill {
        name,
        off,
        len,
        byte,
    })
}

/// map M NAME OFF LEN DIRECTION [MASK]; the mask is 0 where none is given.
#[tactic(auto, unfolding(crate::specs::Commands::map_of, crate::specs::Commands::mapping_of))]
fn map(words: &[&[u8]]) -> Result<Command, Why>
    ensures { result ≡ map_of (texts words.now) }
{
    let (mapping, name, off, len, direction, mask) = match words {
        [mapping, name, off, len, direction] => (mapping, name, off, len, direction, None),
        [mapping, name, off, len, direction, mask] => {
            (mapping, name, off, len, direction, Some(mask))
        }
        _ => return Err(Why::Arity),
    };
    let mapping = name_at(mapping)?;
    let name = name_at(name)?;
    let off = number_at(off)?;
    let len = number_at(len)?;
    let direction = direction_at(direction)?;
    let mask = match mask {
        None => 0,
        Some(mask) => mask_at(mask)?,
    };
    Ok(Command::Map {
        mapping,
        name,
        off,
        len,
        direction,
        mask,
    })
}

/// unmap M [skip]
#[tactic(auto, unfolding(crate::specs::Commands::unmap_of))]
fn unmap(words: &[&[u8]]) -> Result<Command, Why>
    ensures { result ≡ unmap_of (texts words.now) }
{
    match words {
        [mapping] => {
            let mapping = name_at(mapping)?;
            Ok(Command::Unmap {
                mapping,
                skip: false,
            })
        }
        [mapping, skip] => {
            let mapping = name_at(mapping)?;
            if *skip != b"skip".as_slice() {
                return Err(Why::Word);
            }
            Ok(Command::Unmap {
                mapping,
                skip: true,
            })
        }
        _ => Err(Why::Arity),
    }
}
