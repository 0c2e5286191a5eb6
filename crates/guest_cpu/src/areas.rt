//! The steps of commands in an area of the pool. All that they need is taken before the step of the area, which can't fail.
ghost use Rattle.std.specs.Prelude.{◌≡◌, ℕ, ◌<◌, ◌≤◌, ◌^◌, ◌&&◌, [], Some, false, true, not, IfOk, OnOk, length, vec_capacity};
ghost use Rattle.std.specs.Option.{ForSome};
ghost use Rattle.event_core.specs.declared.command.Command.TheVariants as command;
ghost use Rattle.event_core.specs.Holdings.{asks_out, mapping_named};
ghost use Rattle.event_core.specs.Legal.{greatest_stamp};
ghost use Rattle.event_core.specs.Own.{after_map};
ghost use Rattle.event_core.specs.declared.event.Event.TheVariants.{Looked};
ghost use Rattle.guest_steps.specs.Steps.{AreaRoomAlone};
ghost use Rattle.held_blocks.specs.Held.{EndsWithin};
ghost use Rattle.held_blocks.specs.Holdings.{Leaves, own_in as own_held};
ghost use Rattle.io_areas.specs.Value.{moved_by_look};
ghost use Rattle.guest_cpu.specs.Accessing.{AccessedBy, MayAccessWith};
ghost use Rattle.guest_cpu.specs.Wanting.{is_map};

use crate::access::Access;
use event_core::{Command, Event, Name, NoRoom, Reply, Turn};
use guest_base::limits::MAX_AREAS;
use guest_base::{Bytes, Direction, SlotRun};
use held_blocks::Holdings;
use io_areas::Area;
use std::alloc::{AllocError, Global};

/// An access that ends its command with `Done`.
fn done(event: Event, bytes: Bytes) -> Access
    ensures { result ≡ record { event = event; reply = Some Reply.Done; bytes = bytes } }
{
    Access {
        event,
        reply: Some(Reply::Done),
        bytes,
    }
}

/// Takes room in an area for a step that moves at most `bytes` bytes. `AllocError` is out of memory. Nothing else changes.
fn reserve(alloc: Global, area: &mut Area, bytes: u64) -> Result<(), AllocError>
    requires { greatest_stamp area.old.moved < 2 ^ 64 }
    ensures ok { OnOk result (bytes < area.new.room) }
    ensures kept { AreaRoomAlone area.old area.new }
{
    match area.reserve(alloc, bytes) {
        Ok(()) => Ok(()),
        Err(NoRoom::NoMemory) => Err(AllocError),
        Err(NoRoom::Worn(_)) => unreachable!(),
    }
}

/// A buffer of `len` bytes, to be filled. `AllocError` is out of memory.
fn buffer(alloc: Global, len: u64) -> Result<Vec<u8>, AllocError>
    ensures { IfOk result (λ out. length out.items ≡ len) }
{
    Ok(vec![in alloc; 0; len as usize]?)
}

/// The bytes, in a list with room for them.
fn filled(list: Vec<u8>, bytes: &[u8]) -> Bytes
    requires empty { list.items ≡ [] }
    requires room { length bytes.now ≤ vec_capacity list }
    ensures { result ≡ bytes.now }
{
    let mut list = list;
    match list.extend_from_slice(bytes) {
        Ok(()) => Bytes::from_vec(list),
        Err(_) => unreachable!(),
    }
}

/// An access that ends its command with the bytes that it took out of the pool, with room for a copy of them.
fn taken(event: Event, out: Vec<u8>, copy: Vec<u8>) -> Access
    requires empty { copy.items ≡ [] }
    requires room { length out.items ≤ vec_capacity copy }
    ensures { result ≡ record {
      event = event;
      reply = Some (Reply.Hex out.items);
      bytes = out.items;
    } }
{
    let bytes = filled(copy, out.as_slice());
    Access {
        event,
        reply: Some(Reply::Hex(Bytes::from_vec(out))),
        bytes,
    }
}

/// Keeps what a look for the slots of a mapping found: the mapping, or one more look that found nothing. The result is the bytes
/// that the look moved: none where it found nothing.
fn keep_look(
    alloc: Global,
    held: &mut Holdings,
    mapping: &Name,
    name: &Name,
    off: u64,
    direction: Direction,
    run: Option<SlotRun>,
    bytes: Bytes,
) -> Bytes
    requires room { 0 < held.old.kept.room }
    requires few { held.old.looks < MAX_AREAS }
    requires within { ForSome run (λ r. EndsWithin (own_held held.old) name.now off r.len) }
    ensures keeps { (area : ℕ) → Leaves held.old held.new (after_map mapping.now name.now off
        direction (Looked area run) (own_held held.old)) }
    ensures bytes { result ≡ moved_by_look run bytes }
{
    match run {
        Some(run) => {
            held.mapped(mapping.copy(), name, off, direction, run);
            bytes
        }
        None => {
            held.looked();
            Bytes::new(alloc)
        }
    }
}

/// Looks for slots in the area of a number for the bytes of a block, and moves them in where some were found. Without slots the
/// processor looks in the next area, and the command ends with `Full` where this was the last.
fn look(
    alloc: Global,
    held: &mut Holdings,
    turn: &mut Turn,
    area: &mut Area,
    number: u32,
    command: &Command,
) -> Result<Access, AllocError>
    requires map { is_map command.now ≡ true }
    requires number { number ≡ area.old.number }
    requires may { MayAccessWith held.old area.old turn.old command.now }
    ensures { AccessedBy held.old held.new area.old area.new turn.old turn.new
        command.now result }
{
    match command {
        Command::Map {
            mapping,
            name,
            off,
            len,
            direction,
            mask,
        } => {
            let request = held.request(name, *off, *len, *mask);
            let bytes = held.read(alloc, name, *off, *len)?;
            held.reserve_mapping()?;
            reserve(alloc, area, *len)?;
            let run = area.look(turn, request, bytes.as_slice());
            let reply = held.look_reply(run);
            let bytes = keep_look(alloc, held, mapping, name, *off, *direction, run, bytes);
            Ok(Access {
                event: Event::Looked { area: number, run },
                reply,
                bytes,
            })
        }
        _ => unreachable!(),
    }
}

/// Copies bytes of a mapping's block into its slots.
fn sync_device(
    alloc: Global,
    held: &Holdings,
    turn: &mut Turn,
    area: &mut Area,
    mapping: &Name,
    off: u64,
    len: u64,
) -> Result<Access, AllocError>
    requires may { MayAccessWith held.now area.old turn.old
        (command.SyncDev mapping.now off len) }
    ensures { AccessedBy held.now held.now area.old area.new turn.old turn.new
        (command.SyncDev mapping.now off len) result }
{
    let run = held.live(mapping).run;
    let bytes = held.mapped_bytes(alloc, mapping, off, len)?;
    reserve(alloc, area, len)?;
    let (off, len) = (off as u32, len as u32);
    area.copy_in(turn, run, off, bytes.as_slice());
    Ok(done(Event::CopiedIn { run, off, len }, bytes))
}

/// Copies bytes of a mapping's slots into its block.
fn sync_cpu(
    alloc: Global,
    held: &mut Holdings,
    turn: &mut Turn,
    area: &mut Area,
    mapping: &Name,
    off: u64,
    len: u64,
) -> Result<Access, AllocError>
    requires may { MayAccessWith held.old area.old turn.old
        (command.SyncCpu mapping.now off len) }
    ensures { AccessedBy held.old held.new area.old area.new turn.old turn.new
        (command.SyncCpu mapping.now off len) result }
{
    let run = held.live(mapping).run;
    held.reserve_copy(mapping)?;
    let mut out = buffer(alloc, len)?;
    let copy = Vec::with_capacity(alloc, len as usize)?;
    reserve(alloc, area, len)?;
    let at = off as u32;
    area.copy_out(turn, run, at, out.as_mut_slice());
    let copy = filled(copy, out.as_slice());
    held.copied_out(mapping, off, Bytes::from_vec(out));
    let event = Event::CopiedOut {
        run,
        off: at,
        len: len as u32,
    };
    Ok(done(event, copy))
}

/// Ends a mapping, whose bytes are copied into its block.
fn release_into(
    alloc: Global,
    held: &mut Holdings,
    turn: &mut Turn,
    area: &mut Area,
    mapping: &Name,
) -> Result<Access, AllocError>
    requires asks { ForSome (mapping_named (own_held held.old) mapping.now)
        (λ m. asks_out m.direction ≡ true) }
    requires may { MayAccessWith held.old area.old turn.old
        (command.Unmap mapping.now false) }
    ensures { AccessedBy held.old held.new area.old area.new turn.old turn.new
        (command.Unmap mapping.now false) result }
{
    let run = held.live(mapping).run;
    let len = u64::from(run.len);
    held.reserve_copy(mapping)?;
    let mut out = buffer(alloc, len)?;
    let copy = Vec::with_capacity(alloc, len as usize)?;
    reserve(alloc, area, len)?;
    area.release_into(turn, run, out.as_mut_slice());
    let copy = filled(copy, out.as_slice());
    held.copied_out(mapping, 0, Bytes::from_vec(out));
    held.unmapped(mapping);
    Ok(done(Event::Released { run, copied: true }, copy))
}

/// Ends a mapping, of which nothing is copied: its direction doesn't ask for it, or it is to be skipped.
fn release(
    alloc: Global,
    held: &mut Holdings,
    turn: &mut Turn,
    area: &mut Area,
    mapping: &Name,
    skip: bool,
) -> Result<Access, AllocError>
    requires skips { ForSome (mapping_named (own_held held.old) mapping.now)
        (λ m. asks_out m.direction && not skip ≡ false) }
    requires may { MayAccessWith held.old area.old turn.old
        (command.Unmap mapping.now skip) }
    ensures { AccessedBy held.old held.new area.old area.new turn.old turn.new
        (command.Unmap mapping.now skip) result }
{
    let run = held.live(mapping).run;
    reserve(alloc, area, 0)?;
    area.release(turn, run);
    held.unmapped(mapping);
    let event = Event::Released { run, copied: false };
    Ok(done(event, Bytes::new(alloc)))
}

/// Ends a mapping, and copies its bytes into its block where its direction asks for it and it isn't to be skipped.
fn unmap(
    alloc: Global,
    held: &mut Holdings,
    turn: &mut Turn,
    area: &mut Area,
    mapping: &Name,
    skip: bool,
) -> Result<Access, AllocError>
    requires may { MayAccessWith held.old area.old turn.old
        (command.Unmap mapping.now skip) }
    ensures { AccessedBy held.old held.new area.old area.new turn.old turn.new
        (command.Unmap mapping.now skip) result }
{
    if held.live(mapping).asks_out() && !skip {
        release_into(alloc, held, turn, area, mapping)
    } else {
        release(alloc, held, turn, area, mapping, skip)
    }
}

/// The device reads bytes of a mapping.
fn device_read(
    alloc: Global,
    held: &Holdings,
    turn: &mut Turn,
    area: &mut Area,
    mapping: &Name,
    off: u64,
    len: u64,
) -> Result<Access, AllocError>
    requires may { MayAccessWith held.now area.old turn.old
        (command.DRead mapping.now off len) }
    ensures { AccessedBy held.now held.now area.old area.new turn.old turn.new
        (command.DRead mapping.now off len) result }
{
    let run = held.live(mapping).run;
    let mut out = buffer(alloc, len)?;
    let copy = Vec::with_capacity(alloc, len as usize)?;
    reserve(alloc, area, len)?;
    let (off, len) = (off as u32, len as u32);
    area.device_read(turn, run, off, out.as_mut_slice());
    Ok(taken(Event::DeviceRead { run, off, len }, out, copy))
}

/// The device writes bytes into a mapping.
fn device_write(
    alloc: Global,
    held: &Holdings,
    turn: &mut Turn,
    area: &mut Area,
    mapping: &Name,
    off: u64,
    hex: &Bytes,
) -> Result<Access, AllocError>
    requires may { MayAccessWith held.now area.old turn.old
        (command.DWrite mapping.now off hex.now) }
    ensures { AccessedBy held.now held.now area.old area.new turn.old turn.new
        (command.DWrite mapping.now off hex.now) result }
{
    let run = held.live(mapping).run;
    let bytes = Bytes::from_vec(hex.as_slice().to_vec(alloc)?);
    let len = bytes.len();
    reserve(alloc, area, len)?;
    let (off, len) = (off as u32, len as u32);
    area.device_write(turn, run, off, bytes.as_slice());
    Ok(done(Event::DeviceWrote { run, off, len }, bytes))
}

/// The host reads bytes of the pool.
fn host_read(
    alloc: Global,
    held: &Holdings,
    turn: &mut Turn,
    area: &mut Area,
    off: u64,
    len: u64,
) -> Result<Access, AllocError>
    requires may { MayAccessWith held.now area.old turn.old
        (command.HostRead off len) }
    ensures { AccessedBy held.now held.now area.old area.new turn.old turn.new
        (command.HostRead off len) result }
{
    let mut out = buffer(alloc, len)?;
    let copy = Vec::with_capacity(alloc, len as usize)?;
    reserve(alloc, area, len)?;
    area.host_read(turn, off, out.as_mut_slice());
    let len = len as u32;
    Ok(taken(Event::HostRead { off, len }, out, copy))
}

/// The host writes bytes into the pool.
fn host_write(
    alloc: Global,
    held: &Holdings,
    turn: &mut Turn,
    area: &mut Area,
    off: u64,
    hex: &Bytes,
) -> Result<Access, AllocError>
    requires may { MayAccessWith held.now area.old turn.old
        (command.HostWrite off hex.now) }
    ensures { AccessedBy held.now held.now area.old area.new turn.old turn.new
        (command.HostWrite off hex.now) result }
{
    let bytes = Bytes::from_vec(hex.as_slice().to_vec(alloc)?);
    let len = bytes.len();
    reserve(alloc, area, len)?;
    area.host_write(turn, off, bytes.as_slice());
    let len = len as u32;
    Ok(done(Event::HostWrote { off, len }, bytes))
}

/// Steps the area of a number for a command that needs it.
pub(crate) fn access(
    alloc: Global,
    held: &mut Holdings,
    turn: &mut Turn,
    area: &mut Area,
    number: u32,
    command: &Command,
) -> Result<Access, AllocError>
    requires number { number ≡ area.old.number }
    requires may { MayAccessWith held.old area.old turn.old command.now }
    ensures { AccessedBy held.old held.new area.old area.new turn.old turn.new
        command.now result }
{
    match command {
        Command::Map { .. } => look(alloc, held, turn, area, number, command),
        Command::SyncDev { mapping, off, len } => {
            sync_device(alloc, held, turn, area, mapping, *off, *len)
        }
        Command::SyncCpu { mapping, off, len } => {
            sync_cpu(alloc, held, turn, area, mapping, *off, *len)
        }
        Command::Unmap { mapping, skip } => unmap(alloc, held, turn, area, mapping, *skip),
        Command::DRead { mapping, off, len } => {
            device_read(alloc, held, turn, area, mapping, *off, *len)
        }
        Command::DWrite { mapping, off, hex } => {
            device_write(alloc, held, turn, area, mapping, *off, hex)
        }
        Command::HostRead { off, len } => host_read(alloc, held, turn, area, *off, *len),
        Command::HostWrite { off, hex } => host_write(alloc, held, turn, area, *off, hex),
        _ => unreachable!(),
    }
}
