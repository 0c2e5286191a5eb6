//! What the lock of an area holds.
ghost use Rattle.std.specs.Prelude.{◌≡◌, ◌≢◌, ℕ, [], ◌+◌, ◌*◌, ◌^◌, ◌<◌, ◌≤◌, ◌%◌, true, false, None, IfOk, OnOk, OnErr, length, max};
ghost use Rattle.std.specs.Option.{ForSome};
ghost use Rattle.event_core.specs.declared.boot.Boot.{Boot as BootValue};
ghost use Rattle.event_core.specs.declared.event.Event.TheVariants.{Looked, CopiedIn, CopiedOut, Released, DeviceRead, DeviceWrote, HostRead, HostWrote};
ghost use Rattle.event_core.specs.Bytes.{row_of};
ghost use Rattle.event_core.specs.FullOnlyWhereFull.{NothingFits};
ghost use Rattle.event_core.specs.Legal.{greatest_stamp};
ghost use Rattle.event_core.specs.Locally.{Rising};
ghost use Rattle.event_core.specs.Moved.{entries_of};
ghost use Rattle.event_core.specs.Pool.{pool_place, run_for, run_found};
ghost use Rattle.event_core.specs.PoolBytes.{pool_byte};
ghost use Rattle.pool_laws.specs.Live.{IsInArea, MappingsStand};
ghost use Rattle.io_areas.specs.Steps.{AreFree, LeavesMappings, WritesAt, WritesNone, place_in, pool_at};
ghost use Rattle.io_areas.specs.Value.{Appends, HasSizeOf, IsMine, IsRequest, LiesIn, MayStep, moved_by_look};

use crate::transfers::Transfers;
use bounce_copy::{part_in, part_out};
use claim_lock::Parted;
use event_core::{Entries, Event, NoRoom, Turn};
use guest_base::limits::{MAX_AREAS, MAX_SLOTS, SEGMENT_SLOTS, SLOT_BYTES};
use guest_base::{CpuNo, Request, SlotRun};
use io_slots::Slots;
use std::alloc::{AllocError, Global};
use std::marker::Model;

/// What the lock of an area of the pool holds: its slots, which of them mappings use, its bytes, and its entries with the bytes
/// that they moved.
///
/// Contracts see its number, its count of slots, its entries with these bytes, and the room for the next step, which is one more
/// than the bytes that it may move. The bytes of the pool are told for every boot whose areas have as many slots.
#[derive(Drop)]
pub struct Area {
    number: u32,
    count: u32,
    slots: Slots,
    bytes: Vec<u8>,
    transfers: Transfers,
}

impl Model for Area {
    ghost use Rattle.io_areas.specs.Value.{AreaValue};

    ghost Value = { AreaValue };

    ghost use Rattle.io_areas.specs.StandsFor.{StandsFor};

    ghost view = { λ a. record {
      number = a.number;
      slots = a.count;
      moved = a.transfers.moved;
      room = a.transfers.room;
    } };

    ghost invariant = { λ a. StandsFor a.number a.count a.slots a.bytes.items a.transfers.moved };
}

impl Parted for Area {
    ghost use Rattle.io_areas.specs.UnderLock.{fixed_of, part_of, moved_of};

    ghost fixed = { fixed_of };

    ghost part = { part_of };

    ghost moved = { moved_of };
}

impl Area {
    /// The area of a number, below 64, with `slots` free slots, a positive multiple of 128 and at most 131,072. All its bytes are
    /// zero; it has no entry and no room.
    pub fn new(alloc: Global, number: u32, slots: u32) -> Result<Area, AllocError>
        requires number { number < MAX_AREAS }
        requires some { 0 < slots }
        requires few { slots ≤ MAX_SLOTS }
        requires segments { slots % SEGMENT_SLOTS ≡ 0 }
        ensures number { IfOk result (λ a. a.number ≡ number) }
        ensures slots { IfOk result (λ a. a.slots ≡ slots) }
        ensures entries { IfOk result (λ a. a.moved ≡ []) }
    {
        Ok(Area {
            number,
            count: slots,
            slots: Slots::new(alloc, slots)?,
            bytes: vec![in alloc; 0; slots as usize * SLOT_BYTES as usize]?,
            transfers: Transfers::new(alloc),
        })
    }

    /// Takes room for the next step, in which at most `bytes` bytes move. `Worn` comes exactly where the last stamp is 2^64 or
    /// more, and names it. After an error nothing has changed.
    pub fn reserve(&mut self, alloc: Global, bytes: u64) -> Result<(), NoRoom>
        ensures ok { OnOk result (self.new
            ≡ record self.old { room = max self.old.room (bytes + 1) }) }
        ensures failed { OnErr result (self.new ≡ self.old) }
        ensures worn { 2 ^ 64 ≤ greatest_stamp self.old.moved
            → result ≡ Err (NoRoom.Worn (greatest_stamp self.old.moved)) }
        ensures fresh { greatest_stamp self.old.moved < 2 ^ 64
            → (stamp : ℕ) → result ≢ Err (NoRoom.Worn stamp) }
    {
        self.transfers.reserve(alloc, bytes)
    }

    /// The stamp of the last entry, 0 where there is none.
    pub fn last(&self) -> u128
        ensures { result ≡ greatest_stamp self.now.moved }
    {
        self.transfers.last()
    }

    /// Tells contracts that the entries rise, and that live mappings have slots of their own. It does nothing.
    pub fn show_standing(&self)
        ensures rising { Rising (entries_of self.now.moved) }
        ensures mappings { MappingsStand self.now.number self.now.slots self.now.moved }
    {
        self.transfers.show_rising();
    }

    /// Looks for slots for a request, at the places from the hint on and then below it, and moves the bytes of the mapping, `len`
    /// of them, into the first that fit. They are a live mapping of the turn's processor then. None exactly where nothing fits; the
    /// hint stays then.
    pub fn look(&mut self, turn: &mut Turn, request: Request, bytes: &[u8]) -> Option<SlotRun>
        requires request { IsRequest request }
        requires bytes { length bytes.now ≡ request.len }
        requires step { MayStep self.old turn.old request.len }
        ensures found { (boot : BootValue) → HasSizeOf boot self.old → result
            ≡ run_found boot (entries_of self.old.moved) self.old.number request }
        ensures none { (boot : BootValue) → HasSizeOf boot self.old → result ≡ None
            → NothingFits boot (entries_of self.old.moved) request }
        ensures appends { Appends self.old self.new turn.old turn.new
            (Looked self.old.number result) (moved_by_look result bytes.now) }
    {
        match self.find(request) {
            Some(run) => {
                self.begin(turn, run, bytes);
                Some(run)
            }
            None => {
                let area = self.number;
                self.note(turn, Event::Looked { area, run: None }, &[]);
                None
            }
        }
    }

    /// The first slots that fit a request, from the hint on and then below it.
    fn find(&self, request: Request) -> Option<SlotRun>
        requires { IsRequest request }
        ensures found { (boot : BootValue) → HasSizeOf boot self.now → result
            ≡ run_found boot (entries_of self.now.moved) self.now.number request }
        ensures area { ForSome result (IsInArea self.now.number self.now.slots) }
        ensures free { ForSome result (AreFree self.now) }
        ensures len { ForSome result (λ run. run.len ≡ request.len) }
    {
        let first = self.slots.fits(request.need, request.align)?;
        Some(run_for(self.number, request, first))
    }

    /// Writes bytes into a live mapping of the turn's processor, from the mapping's byte `off` on, within its `len`.
    pub fn copy_in(&mut self, turn: &mut Turn, run: SlotRun, off: u32, bytes: &[u8])
        requires mine { IsMine self.old turn.old.cpu.0 run }
        requires within { off + length bytes.now ≤ run.len }
        requires step { MayStep self.old turn.old (length bytes.now) }
        ensures appends { Appends self.old self.new turn.old turn.new
            (CopiedIn run off (length bytes.now)) bytes.now }
    {
        let at = self.mapped_at(turn.cpu, run, off);
        let len = bytes.len() as u32;
        self.write(turn, Event::CopiedIn { run, off, len }, at, bytes);
    }

    /// Fills `out` with the bytes of a live mapping of the turn's processor, from the mapping's byte `off` on, within its `len`.
    pub fn copy_out(&mut self, turn: &mut Turn, run: SlotRun, off: u32, out: &mut [u8])
        requires mine { IsMine self.old turn.old.cpu.0 run }
        requires within { off + length out.old ≤ run.len }
        requires step { MayStep self.old turn.old (length out.old) }
        ensures out { (boot : BootValue) → HasSizeOf boot self.old → out.new
            ≡ row_of (pool_byte boot self.old.moved) (pool_place boot run off) (length out.old) }
        ensures len { length out.new ≡ length out.old }
        ensures appends { Appends self.old self.new turn.old turn.new
            (CopiedOut run off (length out.old)) out.new }
    {
        let at = self.mapped_at(turn.cpu, run, off);
        let len = out.len() as u32;
        self.read(turn, Event::CopiedOut { run, off, len }, at, out);
    }

    /// Ends a live mapping of the turn's processor, and copies nothing. Its slots are free then, and keep their bytes.
    pub fn release(&mut self, turn: &mut Turn, run: SlotRun)
        requires mine { IsMine self.old turn.old.cpu.0 run }
        requires step { MayStep self.old turn.old 0 }
        ensures appends { Appends self.old self.new turn.old turn.new (Released run false) [] }
    {
        self.end(turn, run, false, &[]);
    }

    /// Ends a live mapping of the turn's processor, and fills `out` with all its `len` bytes. Its slots are free then, and keep
    /// their bytes.
    pub fn release_into(&mut self, turn: &mut Turn, run: SlotRun, out: &mut [u8])
        requires mine { IsMine self.old turn.old.cpu.0 run }
        requires whole { length out.old ≡ run.len }
        requires step { MayStep self.old turn.old run.len }
        ensures out { (boot : BootValue) → HasSizeOf boot self.old → out.new
            ≡ row_of (pool_byte boot self.old.moved) (pool_place boot run 0) run.len }
        ensures len { length out.new ≡ run.len }
        ensures appends { Appends self.old self.new turn.old turn.new
            (Released run true) out.new }
    {
        let at = self.mapped_at(turn.cpu, run, 0);
        self.bytes_at(at, out);
        self.end(turn, run, true, out);
    }

    /// The device reads a live mapping of the turn's processor: `out` is filled from the mapping's byte `off` on, within its `len`.
    pub fn device_read(&mut self, turn: &mut Turn, run: SlotRun, off: u32, out: &mut [u8])
        requires mine { IsMine self.old turn.old.cpu.0 run }
        requires within { off + length out.old ≤ run.len }
        requires step { MayStep self.old turn.old (length out.old) }
        ensures out { (boot : BootValue) → HasSizeOf boot self.old → out.new
            ≡ row_of (pool_byte boot self.old.moved) (pool_place boot run off) (length out.old) }
        ensures len { length out.new ≡ length out.old }
        ensures appends { Appends self.old self.new turn.old turn.new
            (DeviceRead run off (length out.old)) out.new }
    {
        let at = self.mapped_at(turn.cpu, run, off);
        let len = out.len() as u32;
        self.read(turn, Event::DeviceRead { run, off, len }, at, out);
    }

    /// The device writes bytes into a live mapping of the turn's processor, from the mapping's byte `off` on, within its `len`.
    pub fn device_write(&mut self, turn: &mut Turn, run: SlotRun, off: u32, bytes: &[u8])
        requires mine { IsMine self.old turn.old.cpu.0 run }
        requires within { off + length bytes.now ≤ run.len }
        requires step { MayStep self.old turn.old (length bytes.now) }
        ensures appends { Appends self.old self.new turn.old turn.new
            (DeviceWrote run off (length bytes.now)) bytes.now }
    {
        let at = self.mapped_at(turn.cpu, run, off);
        let len = bytes.len() as u32;
        self.write(turn, Event::DeviceWrote { run, off, len }, at, bytes);
    }

    /// The host reads the pool: `out` is filled from the byte `off` on, counted from the pool's start. The range lies in the area.
    pub fn host_read(&mut self, turn: &mut Turn, off: u64, out: &mut [u8])
        requires inside { LiesIn self.old off (length out.old) }
        requires step { MayStep self.old turn.old (length out.old) }
        ensures out { (boot : BootValue) → HasSizeOf boot self.old
            → out.new ≡ row_of (pool_byte boot self.old.moved) off (length out.old) }
        ensures len { length out.new ≡ length out.old }
        ensures appends { Appends self.old self.new turn.old turn.new
            (HostRead off (length out.old)) out.new }
    {
        let at = (off - self.start()) as usize;
        let len = out.len() as u32;
        self.read(turn, Event::HostRead { off, len }, at, out);
    }

    /// The host writes bytes into the pool, from the byte `off` on, counted from the pool's start. The range lies in the area.
    pub fn host_write(&mut self, turn: &mut Turn, off: u64, bytes: &[u8])
        requires inside { LiesIn self.old off (length bytes.now) }
        requires step { MayStep self.old turn.old (length bytes.now) }
        ensures appends { Appends self.old self.new turn.old turn.new
            (HostWrote off (length bytes.now)) bytes.now }
    {
        let at = (off - self.start()) as usize;
        let len = bytes.len() as u32;
        self.write(turn, Event::HostWrote { off, len }, at, bytes);
    }

    /// The entries, which rise.
    pub fn into_entries(self) -> Entries
        ensures entries { result ≡ entries_of self.moved }
        ensures rising { Rising result }
    {
        let Area {
            number: _,
            count: _,
            slots: _,
            bytes: _,
            transfers,
        } = self;
        transfers.into_entries()
    }

    /// The pool's byte at which the area starts.
    fn start(&self) -> u64
        ensures start { result ≡ SLOT_BYTES * (self.now.number * self.now.slots) }
        ensures few { self.now.slots ≤ MAX_SLOTS }
    {
        SLOT_BYTES * (u64::from(self.number) * u64::from(self.count))
    }

    /// The area's byte at which byte `off` of a live mapping of a processor stands.
    fn mapped_at(&self, cpu: CpuNo, run: SlotRun, off: u32) -> usize
        requires { IsMine self.now cpu.0 run }
        ensures place { result ≡ place_in run off }
        ensures mapping { IsInArea self.now.number self.now.slots run }
    {
        let _ = &self.transfers;
        byte_of(run, off)
    }

    /// Fills `out` with the area's bytes from the byte `at` on.
    fn bytes_at(&self, at: usize, out: &mut [u8])
        requires { at + length out.old ≤ SLOT_BYTES * self.now.slots }
        ensures out { (boot : BootValue) → HasSizeOf boot self.now → out.new
            ≡ row_of (pool_byte boot self.now.moved) (pool_at self.now at) (length out.old) }
        ensures len { length out.new ≡ length out.old }
    {
        part_out(&self.bytes, at, out);
    }

    /// Appends the entry of an event that moves these bytes, writes none of them and leaves the mappings.
    fn note(&mut self, turn: &mut Turn, event: Event, bytes: &[u8])
        requires leaves { LeavesMappings event }
        requires none { WritesNone event }
        requires step { MayStep self.old turn.old (length bytes.now) }
        ensures { Appends self.old self.new turn.old turn.new event bytes.now }
    {
        self.transfers.append(turn, self.number, event, bytes);
    }

    /// Fills `out` with the area's bytes from the byte `at` on, as an event does that leaves the mappings.
    fn read(&mut self, turn: &mut Turn, event: Event, at: usize, out: &mut [u8])
        requires inside { at + length out.old ≤ SLOT_BYTES * self.old.slots }
        requires leaves { LeavesMappings event }
        requires none { WritesNone event }
        requires step { MayStep self.old turn.old (length out.old) }
        ensures out { (boot : BootValue) → HasSizeOf boot self.old → out.new
            ≡ row_of (pool_byte boot self.old.moved) (pool_at self.old at) (length out.old) }
        ensures len { length out.new ≡ length out.old }
        ensures appends { Appends self.old self.new turn.old turn.new event out.new }
    {
        self.bytes_at(at, out);
        self.note(turn, event, out);
    }

    /// Writes bytes into the area from its byte `at` on, as an event does that leaves the mappings.
    fn write(&mut self, turn: &mut Turn, event: Event, at: usize, bytes: &[u8])
        requires inside { at + length bytes.now ≤ SLOT_BYTES * self.old.slots }
        requires leaves { LeavesMappings event }
        requires place { WritesAt self.old at event }
        requires step { MayStep self.old turn.old (length bytes.now) }
        ensures { Appends self.old self.new turn.old turn.new event bytes.now }
    {
        part_in(&mut self.bytes, at, bytes);
        self.transfers.append(turn, self.number, event, bytes);
    }

    /// Begins a mapping in free slots, and moves its bytes in.
    fn begin(&mut self, turn: &mut Turn, run: SlotRun, bytes: &[u8])
        requires area { IsInArea self.old.number self.old.slots run }
        requires free { AreFree self.old run }
        requires bytes { length bytes.now ≡ run.len }
        requires step { MayStep self.old turn.old run.len }
        ensures { Appends self.old self.new turn.old turn.new
            (Looked self.old.number (Some run)) bytes.now }
    {
        self.slots.take(run.first, run.count);
        part_in(&mut self.bytes, byte_of(run, 0), bytes);
        let event = Event::Looked {
            area: self.number,
            run: Some(run),
        };
        self.transfers.append(turn, self.number, event, bytes);
    }

    /// Ends a live mapping of the turn's processor, whose bytes were moved out if `copied` says so.
    fn end(&mut self, turn: &mut Turn, run: SlotRun, copied: bool, bytes: &[u8])
        requires mine { IsMine self.old turn.old.cpu.0 run }
        requires step { MayStep self.old turn.old (length bytes.now) }
        ensures { Appends self.old self.new turn.old turn.new (Released run copied) bytes.now }
    {
        self.slots.release(run.first, run.count);
        let event = Event::Released { run, copied };
        self.transfers.append(turn, self.number, event, bytes);
    }
}

/// The area's byte at which byte `off` of a mapping stands.
fn byte_of(run: SlotRun, off: u32) -> usize
    ensures { result ≡ place_in run off }
{
    SLOT_BYTES as usize * run.first as usize + run.offset as usize + off as usize
}

/// The slots from `first` on for a request.
fn run_for(area: u32, request: Request, first: u32) -> SlotRun
    ensures { result ≡ run_for area request first }
{
    SlotRun {
        area,
        first,
        count: request.need,
        offset: request.offset,
        len: request.len,
    }
}
