//! Areas are stepped, and their bytes and entries are read.
ghost use Rattle.std.specs.Prelude.{◌≡◌, ◌≤◌, IsTrue, length};
ghost use Rattle.std.specs.Option.{ForSome};
ghost use Rattle.guest_base.specs.declared.transfer.SlotRun.{SlotRun};
ghost use Rattle.io_areas.specs.Value.{IsMine, IsRequest, MayStep};

use event_core::{Entries, NoRoom, Place, Turn};
use guest_base::{Align, CpuNo, Request, SlotRun};
use io_areas::Area;
use std::alloc::Global;
use std::test::Fail;

/// The first turn of a processor.
fn first_turn(cpu: u32) -> Turn
    ensures cpu { result.cpu.0 ≡ cpu }
{
    Turn {
        cpu: CpuNo(cpu),
        cmd: 0,
        clock: 0,
    }
}

/// A request for slots, with one byte in each.
fn request(need: u32) -> Request
    requires some { 1 ≤ need }
    requires few { need ≤ 128 }
    ensures request { IsRequest result }
    ensures len { result.len ≡ need }
{
    Request {
        need,
        align: Align::Any,
        offset: 5,
        len: need,
    }
}

/// Takes room for a step. False where there is none, or no stamp is left.
fn ready(alloc: Global, area: &mut Area, turn: &Turn, bytes: usize) -> bool
    ensures step { IsTrue result → MayStep area.new turn.now bytes }
    ensures number { area.new.number ≡ area.old.number }
    ensures slots { area.new.slots ≡ area.old.slots }
    ensures moved { area.new.moved ≡ area.old.moved }
{
    turn.clock < 1 << 64 && area.reserve(alloc, bytes as u64).is_ok()
}

/// Maps the bytes, each into a slot of its own.
fn map(alloc: Global, area: &mut Area, turn: &mut Turn, bytes: &[u8]) -> Option<SlotRun>
    requires some { 1 ≤ length bytes.now }
    requires few { length bytes.now ≤ 128 }
    ensures mine { ForSome result (IsMine area.new turn.new.cpu.0) }
    ensures kept { (run : SlotRun) → IsMine area.old turn.old.cpu.0 run
        → IsMine area.new turn.new.cpu.0 run }
    ensures number { area.new.number ≡ area.old.number }
    ensures slots { area.new.slots ≡ area.old.slots }
{
    if !ready(alloc, area, turn, bytes.len()) {
        return None;
    }
    area.look(turn, request(bytes.len() as u32), bytes)
}

/// Copies bytes into a mapping from a byte on, as the processor or as the device.
fn put(
    alloc: Global,
    area: &mut Area,
    turn: &mut Turn,
    run: SlotRun,
    off: u32,
    bytes: &[u8],
    device: bool,
) -> bool
    requires { IsMine area.old turn.old.cpu.0 run }
    ensures { IsMine area.new turn.new.cpu.0 run }
{
    if bytes.len() > run.len as usize || off > run.len - bytes.len() as u32 {
        return false;
    }
    if !ready(alloc, area, turn, bytes.len()) {
        return false;
    }
    if device {
        area.device_write(turn, run, off, bytes);
    } else {
        area.copy_in(turn, run, off, bytes);
    }
    true
}

/// Copies bytes out of a mapping from a byte on, as the processor or as the device.
fn get(
    alloc: Global,
    area: &mut Area,
    turn: &mut Turn,
    run: SlotRun,
    off: u32,
    out: &mut [u8],
    device: bool,
) -> bool
    requires { IsMine area.old turn.old.cpu.0 run }
    ensures { IsMine area.new turn.new.cpu.0 run }
{
    if out.len() > run.len as usize || off > run.len - out.len() as u32 {
        return false;
    }
    if !ready(alloc, area, turn, out.len()) {
        return false;
    }
    if device {
        area.device_read(turn, run, off, out);
    } else {
        area.copy_out(turn, run, off, out);
    }
    true
}

/// Ends a mapping, and copies nothing.
fn end(alloc: Global, area: &mut Area, turn: &mut Turn, run: SlotRun) -> bool
    requires { IsMine area.old turn.old.cpu.0 run }
    ensures number { area.new.number ≡ area.old.number }
    ensures slots { area.new.slots ≡ area.old.slots }
{
    if !ready(alloc, area, turn, 0) {
        return false;
    }
    area.release(turn, run);
    true
}

/// Ends a mapping, and copies its bytes out.
fn end_into(alloc: Global, area: &mut Area, turn: &mut Turn, run: SlotRun, out: &mut [u8]) -> bool
    requires { IsMine area.old turn.old.cpu.0 run }
{
    if out.len() != run.len as usize || !ready(alloc, area, turn, out.len()) {
        return false;
    }
    area.release_into(turn, run, out);
    true
}

/// Whether the entries have the stamps 1, 2, .. in their order, the place of an area, and no reply.
fn are_bare(entries: &Entries, area: u32) -> bool {
    for at in 0..entries.len() {
        let entry = entries.get(at);
        let bare = entry.place == Place::Area(area) && entry.reply.is_none();
        if !bare || entry.stamp != u128::from(at) + 1 {
            return false;
        }
    }
    true
}

#[test]
fn copies_for_the_processor_and_the_device(rt: HostRuntime) -> Result<(), Fail> {
    let alloc = rt.alloc();
    let mut area = Area::new(alloc, 1, 128)?;
    let mut turn = first_turn(0);
    let Some(run) = map(alloc, &mut area, &mut turn, &[1, 2, 3]) else {
        panic!(rt; "no slots");
    };
    assert_eq!(rt; (run.area, run.first, run.count), (1, 0, 3));
    assert!(rt; put(alloc, &mut area, &mut turn, run, 1, &[7], false));
    let mut out = [9; 3];
    assert!(rt; get(alloc, &mut area, &mut turn, run, 0, &mut out, true));
    assert_eq!(rt; out, [1, 7, 3]);
    assert!(rt; put(alloc, &mut area, &mut turn, run, 2, &[8], true));
    let mut one = [9; 1];
    assert!(rt; get(alloc, &mut area, &mut turn, run, 2, &mut one, false));
    assert_eq!(rt; one, [8]);
    assert!(rt; end_into(alloc, &mut area, &mut turn, run, &mut out));
    assert_eq!(rt; out, [1, 7, 8]);
    assert_eq!(rt; area.last(), 6);
    assert!(rt; are_bare(&area.into_entries(), 1));
    Ok(())
}

#[test]
fn full_area_finds_none_and_keeps_its_hint(rt: HostRuntime) -> Result<(), Fail> {
    let alloc = rt.alloc();
    let mut area = Area::new(alloc, 0, 128)?;
    let mut turn = first_turn(2);
    let Some(half) = map(alloc, &mut area, &mut turn, &[1; 64]) else {
        panic!(rt; "no slots");
    };
    let second = map(alloc, &mut area, &mut turn, &[2]).map(|run| run.first);
    assert_eq!(rt; (half.first, second), (0, Some(64)));
    assert!(rt; map(alloc, &mut area, &mut turn, &[3; 64]).is_none());
    assert!(rt; end(alloc, &mut area, &mut turn, half));
    let third = map(alloc, &mut area, &mut turn, &[4]).map(|run| run.first);
    assert_eq!(rt; third, Some(65));
    assert!(rt; are_bare(&area.into_entries(), 0));
    Ok(())
}

#[test]
fn host_sees_the_bytes_of_free_slots(rt: HostRuntime) -> Result<(), Fail> {
    let alloc = rt.alloc();
    let mut area = Area::new(alloc, 1, 128)?;
    let mut turn = first_turn(0);
    let mut out = [9; 3];
    assert!(rt; ready(alloc, &mut area, &turn, 3));
    area.host_read(&mut turn, 2048 * 128 + 4, &mut out);
    assert_eq!(rt; out, [0, 0, 0]);
    assert!(rt; ready(alloc, &mut area, &turn, 2));
    area.host_write(&mut turn, 2048 * 128 + 4, &[5, 6]);
    let Some(run) = map(alloc, &mut area, &mut turn, &[7]) else {
        panic!(rt; "no slots");
    };
    assert!(rt; end(alloc, &mut area, &mut turn, run));
    assert!(rt; ready(alloc, &mut area, &turn, 3));
    area.host_read(&mut turn, 2048 * 128 + 4, &mut out);
    assert_eq!(rt; out, [5, 7, 0]);
    assert!(rt; are_bare(&area.into_entries(), 1));
    Ok(())
}

#[test]
fn stamps_end_at_their_limit(rt: HostRuntime) -> Result<(), Fail> {
    let alloc = rt.alloc();
    let mut area = Area::new(alloc, 0, 128)?;
    let mut turn = first_turn(0);
    turn.clock = (1 << 64) - 1;
    let mut out = [9];
    assert!(rt; ready(alloc, &mut area, &turn, 1));
    area.host_read(&mut turn, 0, &mut out);
    assert_eq!(rt; area.reserve(alloc, 1), Err(NoRoom::Worn(1 << 64)));
    let entries = area.into_entries();
    assert!(rt;
        entries
            .as_slice()
            .last()
            .is_some_and(|entry| entry.stamp == 1 << 64)
    );
    Ok(())
}
