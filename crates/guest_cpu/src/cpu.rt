//! A processor with its port.
ghost use Rattle.std.specs.Prelude.{◌≡◌, ◌≢◌, ℕ, List, ◌≤◌, ◌<◌, ◌^◌, None, Some, All, length, OnOk, OnErr};
ghost use Rattle.std.specs.Option.{ForSome};
ghost use Rattle.event_core.specs.declared.command.Command.TheVariants.{Accept, Alloc, Free, Load, Query};
ghost use Rattle.event_core.specs.ReadableScript.{ReadableScript};
ghost use Rattle.block_laws.specs.Unconverting.{ConvertsNothing};
ghost use Rattle.dma_map.specs.Pools.{IsLayout, layout_in};
ghost use Rattle.event_core.specs.Moved.{entries_of};
ghost use Rattle.io_areas.specs.Value.{AreaValue};
ghost use Rattle.guest_steps.specs.Ground.{Ground, ground_of};
ghost use Rattle.guest_steps.specs.Seen.{first_seen};
ghost use Rattle.guest_steps.specs.Steps.{IsWorked, MakesInMemory};
ghost use Rattle.guest_cpu.specs.Resting.{StepsOn};
ghost use Rattle.guest_cpu.specs.Wanting.{as_command};
ghost use Rattle.guest_steps.specs.Standing.{Stands};

use crate::progress::Progress;
use crate::room::{take_entry_room, take_room};
use crate::wanted::Wanted;
use event_core::{Boot, Entries, Hosts, Name, NoRoom, Script};
use guest_base::CpuNo;
use guest_steps::{Need, Processor, Stepped};
use io_areas::Area;
use memory_core::Memory;
use page_module::Port;
use std::alloc::{AllocError, Global};
use std::snapshot::Snapshot;

/// A processor of a guest: its number, its script, its entries and its port to the secure module. Contracts see of it what
/// `seen_by` tells, by the meanings of its kind of port.
#[derive(Drop)]
pub struct Cpu<P: Port> {
    pub(crate) progress: Progress,
    pub(crate) port: P,
    /// The port as it was when the processor was made.
    pub(crate) port_before: Snapshot<P>,
}

impl<P: Port> Cpu<P> {
    ghost use Rattle.guest_cpu.specs.Standing.{CpuStands, seen_by};

    /// A processor of a boot, which has made no entry: with its number, its script and its port. It has a copy of the boot's
    /// host records, and knows the layout of its pool.
    pub fn new(
        alloc: Global,
        boot: &Boot,
        hosts: Hosts,
        number: CpuNo,
        script: Script,
        port: P,
    ) -> Cpu<P>
        requires hosts { hosts ≡ boot.now.hosts }
        requires pool { ForSome (layout_in boot.now) IsLayout }
        requires unconverting { All ConvertsNothing script }
        requires readable { ReadableScript script }
        ensures seen { seen_by P.made P.faults result
            ≡ first_seen boot.now number.0 script (P.made port) (P.faults port) }
        ensures stands { (base : Ground) → Stands (seen_by P.made P.faults result) base
            → CpuStands P.made P.faults P.room result base }
        ensures port { result.port ≡ port }
    {
        let port_before = Snapshot::of(&port);
        Cpu {
            progress: Progress::new(alloc, boot, hosts, number, script),
            port,
            port_before,
        }
    }

    /// The port, the script and the entries.
    pub fn finish(self) -> (P, Script, Entries)
        ensures port { result.0 ≡ self.port }
        ensures script { result.1 ≡ (seen_by P.made P.faults self).script }
        ensures entries { result.2 ≡ entries_of (seen_by P.made P.faults self).moved }
    {
        let Cpu {
            progress,
            port,
            port_before: _,
        } = self;
        let (script, entries) = progress.into_parts();
        (port, script, entries)
    }
}

impl<P: Port> Cpu<P> {
    ghost use Rattle.guest_cpu.specs.Leaving.{Leaves, StandsOver};
    ghost use Rattle.guest_cpu.specs.Standing.{CpuStands, seen_by};

    /// Reports the open run, which was worked on.
    fn report(&mut self, memory: &mut Memory)
        requires out { (seen_by P.made P.faults self.old).out ≢ None }
        requires worked { IsWorked (seen_by P.made P.faults self.old) }
        requires stands { StandsOver P.made P.faults P.room self.old memory.old }
        ensures stands { (areas : List AreaValue)
            → CpuStands P.made P.faults P.room self.old (ground_of memory.old areas)
            → CpuStands P.made P.faults P.room self.new (ground_of memory.new areas) }
        ensures makes { MakesInMemory (seen_by P.made P.faults self.old)
            (seen_by P.made P.faults self.new) memory.old memory.new }
        ensures port { self.new.port ≡ self.old.port }
    {
        self.progress.report(memory);
    }

    /// Accepts a range of memory: claims its guarded units, with room taken for all their unaccepted runs.
    fn accept(
        &mut self,
        alloc: Global,
        memory: &mut Memory,
        start: u64,
        len: u64,
    ) -> Result<Stepped, AllocError>
        requires steps { StepsOn (seen_by P.made P.faults self.old) memory.old
            (Accept start len) }
        requires stands { StandsOver P.made P.faults P.room self.old memory.old }
        ensures leaves { Leaves P.made P.faults P.room self.old self.new
            memory.old memory.new result }
        ensures never_fails { P.never_fails self.old.port → P.never_fails self.new.port }
    {
        let units = memory.claim_units(start, len);
        let unaccepted = memory.unaccepted_units(start, len);
        let Cpu { progress, port, .. } = self;
        let rooms = take_room(alloc, port, progress, memory, units, unaccepted)?;
        Ok(progress.begin(memory, start, len, rooms))
    }

    /// Allocates a block of 2^`order` pages: takes a free one, or claims the lowest waiting one, with room taken for all its
    /// unaccepted runs.
    fn alloc(
        &mut self,
        alloc: Global,
        memory: &mut Memory,
        name: Name,
        order: u32,
    ) -> Result<Stepped, AllocError>
        requires steps { StepsOn (seen_by P.made P.faults self.old) memory.old
            (Alloc name order) }
        requires stands { StandsOver P.made P.faults P.room self.old memory.old }
        ensures leaves { Leaves P.made P.faults P.room self.old self.new
            memory.old memory.new result }
        ensures never_fails { P.never_fails self.old.port → P.never_fails self.new.port }
    {
        let units = memory.waiting_units();
        let unaccepted = memory.unaccepted_waiting();
        let Cpu { progress, port, .. } = self;
        let rooms = take_room(alloc, port, progress, memory, units, unaccepted)?;
        progress.look(alloc, memory, name, order, rooms)
    }
}

impl<P: Port> Cpu<P> {
    ghost use Rattle.guest_cpu.specs.Leaving.{Leaves, StandsOver};
    ghost use Rattle.guest_cpu.specs.Standing.{CpuStands, seen_by};

    /// Tells whether a range of memory has an unaccepted unit.
    fn query(
        &mut self,
        alloc: Global,
        memory: &mut Memory,
        start: u64,
        len: u64,
    ) -> Result<Stepped, AllocError>
        requires steps { StepsOn (seen_by P.made P.faults self.old) memory.old
            (Query start len) }
        requires stands { StandsOver P.made P.faults P.room self.old memory.old }
        ensures leaves { Leaves P.made P.faults P.room self.old self.new
            memory.old memory.new result }
        ensures port { self.new.port ≡ self.old.port }
    {
        take_entry_room(alloc, &mut self.progress, memory)?;
        self.progress.query(memory, start, len);
        Ok(Stepped::Event)
    }

    /// Frees the block of a name.
    fn free(
        &mut self,
        alloc: Global,
        memory: &mut Memory,
        name: Name,
    ) -> Result<Stepped, AllocError>
        requires steps { StepsOn (seen_by P.made P.faults self.old) memory.old
            (Free name) }
        requires stands { StandsOver P.made P.faults P.room self.old memory.old }
        ensures leaves { Leaves P.made P.faults P.room self.old self.new
            memory.old memory.new result }
        ensures port { self.new.port ≡ self.old.port }
    {
        take_entry_room(alloc, &mut self.progress, memory)?;
        self.progress.free(memory, &name);
        Ok(Stepped::Event)
    }

    /// Loads eight bytes from an offset in the block of a name on, which end past it.
    fn stray(
        &mut self,
        alloc: Global,
        memory: &mut Memory,
        name: Name,
        off: u64,
    ) -> Result<Stepped, AllocError>
        requires steps { StepsOn (seen_by P.made P.faults self.old) memory.old
            (Load name off) }
        requires stands { StandsOver P.made P.faults P.room self.old memory.old }
        ensures leaves { Leaves P.made P.faults P.room self.old self.new
            memory.old memory.new result }
        ensures port { self.new.port ≡ self.old.port }
    {
        take_entry_room(alloc, &mut self.progress, memory)?;
        let bytes = self.progress.strayed(alloc, &name, off)?;
        self.progress.stray(memory, &name, off, bytes);
        Ok(Stepped::Event)
    }

    /// Steps the memory for the present command, with no claim open.
    fn step_on(
        &mut self,
        alloc: Global,
        memory: &mut Memory,
        wanted: Wanted,
    ) -> Result<Stepped, AllocError>
        requires steps { StepsOn (seen_by P.made P.faults self.old) memory.old
            (as_command wanted) }
        requires stands { StandsOver P.made P.faults P.room self.old memory.old }
        ensures leaves { Leaves P.made P.faults P.room self.old self.new
            memory.old memory.new result }
        ensures never_fails { P.never_fails self.old.port → P.never_fails self.new.port }
    {
        match wanted {
            Wanted::Accept(start, len) => self.accept(alloc, memory, start, len),
            Wanted::Query(start, len) => self.query(alloc, memory, start, len),
            Wanted::Alloc(name, order) => self.alloc(alloc, memory, name, order),
            Wanted::Free(name) => self.free(alloc, memory, name),
            Wanted::Stray(name, off) => self.stray(alloc, memory, name, off),
        }
    }
}

impl<P: Port + Send> Processor for Cpu<P> {
    ghost use Rattle.guest_cpu.specs.Found.{found-course};
    ghost use Rattle.guest_cpu.specs.Standing.{CpuStands, seen_by};

    ghost seen = { seen_by P.made P.faults };

    ghost stands = { CpuStands P.made P.faults P.room };

    ghost never_fails = { λ c. P.never_fails c.port };

    fn next_need(&self) -> Need {
        self.progress.next_need()
    }

    fn work(&mut self) {
        self.progress.work(&mut self.port);
    }

    fn step_memory(&mut self, alloc: Global, memory: &mut Memory) -> Result<Stepped, NoRoom> {
        if self.progress.is_claiming() {
            self.report(memory);
            return Ok(Stepped::Event);
        }
        let stamp = self.progress.clock().max(memory.last());
        if stamp >= 1 << 64 {
            return Err(NoRoom::Worn(stamp));
        }
        let wanted = self.progress.wanted();
        match self.step_on(alloc, memory, wanted) {
            Ok(stepped) => Ok(stepped),
            Err(AllocError) => Err(NoRoom::NoMemory),
        }
    }

    fn step_area(&mut self, alloc: Global, area: &mut Area) -> Result<(), NoRoom> {
        let stamp = self.progress.clock().max(area.last());
        if stamp >= 1 << 64 {
            return Err(NoRoom::Worn(stamp));
        }
        area.show_standing();
        match self.progress.step_area(alloc, area) {
            Ok(()) => Ok(()),
            Err(AllocError) => Err(NoRoom::NoMemory),
        }
    }

    fn step_own(&mut self, alloc: Global) -> Result<(), NoRoom> {
        self.progress.step_alone(alloc)
    }

    ghost told = { λ c base s. s.stands };

    ghost left_standing = { λ c left found s again.
        found-course c.progress (P.made c.port_before.value) (P.made c.port)
        (P.faults c.port_before.value) (P.faults c.port) (P.room c.port) left found s again };
}
