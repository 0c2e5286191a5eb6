//! What a command needs, and what it asks of the memory.
ghost use Rattle.std.specs.Prelude.{◌≡◌, None, Some};
ghost use Rattle.std.specs.Option.{IsSome};
ghost use Rattle.block_laws.specs.Unconverting.{ConvertsNothing};
ghost use Rattle.event_core.specs.declared.boot.Boot.{Boot};
ghost use Rattle.event_core.specs.Holdings.{asks_in, asks_out, block_named, mapping_named};
ghost use Rattle.event_core.specs.Refusals.{refusal_of};
ghost use Rattle.guest_steps.specs.Seen.{need_for, need_of_copy, need_of_load, need_of_mapping, need_unrefused};
ghost use Rattle.guest_steps.specs.declared.processor.Need.TheVariants.{Memory};
ghost use Rattle.dma_map.specs.Pools.{HasPool};
ghost use Rattle.held_blocks.specs.Holdings.{own_in as own_held};
ghost use Rattle.guest_cpu.specs.Kept.{HasFewLooks};
ghost use Rattle.guest_cpu.specs.Wanting.{as_command};

use event_core::{Command, Name};
use guest_base::CpuNo;
use guest_steps::Need;
use held_blocks::Holdings;

/// What a command asks of the memory that isn't refused and doesn't end by the processor alone.
#[derive(Debug, Drop)]
pub(crate) enum Wanted {
    /// To accept a range of bytes.
    Accept(u64, u64),
    /// Whether a range of bytes has an unaccepted unit.
    Query(u64, u64),
    /// A block of an order, by a name.
    Alloc(Name, u32),
    /// To free the block of a name.
    Free(Name),
    /// A load from an offset in the block of a name that ends past it.
    Stray(Name, u64),
}

impl Wanted {
    /// What a command asks that needs the memory.
    pub(crate) fn of(held: &Holdings, number: CpuNo, command: &Command) -> Wanted
        requires unconverting { ConvertsNothing command.now }
        requires need { (boot : Boot) × HasPool boot held.now.layout
            × (need_for boot number.0 (own_held held.now) (Some command.now) ≡ Memory) }
        ensures { command.now ≡ as_command result }
    {
        match command {
            Command::Accept { start, len } => Wanted::Accept(*start, *len),
            Command::Query { start, len } => Wanted::Query(*start, *len),
            Command::Alloc { name, order } => Wanted::Alloc(name.copy(), *order),
            Command::Free { name } => Wanted::Free(name.copy()),
            Command::Load { name, off } => Wanted::Stray(name.copy(), *off),
            _ => unreachable!(),
        }
    }
}

/// A load that ends in its block needs nothing beside the processor.
fn need_of_load(held: &Holdings, name: &Name, off: u64) -> Need
    requires { IsSome (block_named (own_held held.now) name.now) }
    ensures { result ≡ need_of_load (block_named (own_held held.now) name.now) off }
{
    if held.is_inside(name, off) {
        Need::Own
    } else {
        Need::Memory
    }
}

/// A command about a mapping needs the mapping's area.
fn need_of_mapping(held: &Holdings, mapping: &Name) -> Need
    ensures { result ≡ need_of_mapping (mapping_named (own_held held.now) mapping.now) }
{
    match held.mapping(mapping) {
        Some(live) => Need::Area(live.run.area),
        None => Need::Memory,
    }
}

/// A copy of a mapping's bytes into its slots needs the mapping's area where its direction asks for it.
fn need_of_copy_in(held: &Holdings, mapping: &Name) -> Need
    ensures { result ≡ need_of_copy (mapping_named (own_held held.now) mapping.now)
        (λ m. asks_in m.direction) }
{
    match held.mapping(mapping) {
        Some(live) if live.asks_in() => Need::Area(live.run.area),
        Some(_) => Need::Own,
        None => Need::Memory,
    }
}

/// A copy of a mapping's bytes into its block needs the mapping's area where its direction asks for it.
fn need_of_copy_out(held: &Holdings, mapping: &Name) -> Need
    ensures { result ≡ need_of_copy (mapping_named (own_held held.now) mapping.now)
        (λ m. asks_out m.direction) }
{
    match held.mapping(mapping) {
        Some(live) if live.asks_out() => Need::Area(live.run.area),
        Some(_) => Need::Own,
        None => Need::Memory,
    }
}

/// What a command needs that isn't refused, of a processor of a number that holds these.
fn need_unrefused(held: &Holdings, number: CpuNo, command: &Command) -> Need
    requires unconverting { ConvertsNothing command.now }
    requires looks { HasFewLooks held.now }
    requires fine { (boot : Boot) × HasPool boot held.now.layout
        × (refusal_of boot (own_held held.now) command.now ≡ None) }
    ensures { (boot : Boot) → HasPool boot held.now.layout
        → result ≡ need_unrefused boot number.0 (own_held held.now) command.now }
{
    match command {
        Command::Read { .. } | Command::Write { .. } | Command::Fill { .. } => Need::Own,
        Command::Load { name, off } => need_of_load(held, name, *off),
        Command::Map { .. } => Need::Area(held.area_to_look(number)),
        Command::SyncDev { mapping, .. } => need_of_copy_in(held, mapping),
        Command::SyncCpu { mapping, .. } => need_of_copy_out(held, mapping),
        Command::Unmap { mapping, .. }
        | Command::DRead { mapping, .. }
        | Command::DWrite { mapping, .. } => need_of_mapping(held, mapping),
        Command::HostRead { off, len } => Need::Area(held.host_area(*off, *len)),
        Command::HostWrite { off, hex } => Need::Area(held.host_area(*off, hex.len())),
        _ => Need::Memory,
    }
}

/// What a command needs of a processor of a number that holds these.
pub(crate) fn need_of(held: &Holdings, number: CpuNo, command: &Command) -> Need
    requires unconverting { ConvertsNothing command.now }
    requires looks { HasFewLooks held.now }
    requires pool { (boot : Boot) × HasPool boot held.now.layout }
    ensures { (boot : Boot) → HasPool boot held.now.layout
        → result ≡ need_for boot number.0 (own_held held.now) (Some command.now) }
{
    if held.refusal(command).is_some() {
        Need::Own
    } else {
        need_unrefused(held, number, command)
    }
}
