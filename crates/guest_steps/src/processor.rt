ghost use Rattle.std.specs.Prelude.{◌≡◌, ◌≤◌, ◌^◌, ℕ, List, None, OnOk, OnErr};
ghost use Rattle.event_core.specs.Legal.{greatest_stamp};
ghost use Rattle.io_areas.specs.Value.{AreaValue};
ghost use Rattle.guest_steps.specs.Ground.{FoundAgain, Ground, HasArea, ground_of, with_area};
ghost use Rattle.guest_steps.specs.Seen.{Seen, need_of};
ghost use Rattle.guest_steps.specs.Standing.{Stands};
ghost use Rattle.guest_steps.specs.Steps.{AreaRoomAlone, IsBlocked, IsWorked, MakesInArea, MakesInMemory, MakesOwn, RoomAlone, Works, stamp_before, stamp_in};

use event_core::NoRoom;
use io_areas::Area;
use memory_core::Memory;
use std::alloc::Global;

/// What a processor's next step needs.
#[derive(Clone, Copy, Debug, PartialEq, Eq)]
pub enum Need {
    /// The memory, under its lock.
    Memory,
    /// The area of the pool with this number, under its lock.
    Area(u32),
    /// Nothing beside the processor itself.
    Own,
    /// There is no next step: every command has its reply.
    Finished,
}

/// How a step of the memory ended.
#[derive(Clone, Copy, Debug, PartialEq, Eq)]
pub enum Stepped {
    /// One entry was made.
    Event,
    /// There is no next event, as another processor has a claim open: nothing has changed.
    Blocked,
}

/// A processor that runs its script step by step. `seen` is what contracts see of it, `stands` how it stands over the memory
/// and the areas of the pool, and `never_fails` that its port never fails.
pub trait Processor: Send {
    ghost seen: { Self → Seen };

    ghost stands: { Self → Ground → Type 0 };

    ghost never_fails: { Self → Type 0 };

    /// What the next step needs.
    fn next_need(&self) -> Need
        ensures { result ≡ need_of (seen self.now) };

    /// Does the calls of the secure module for the pages that are out, if any. It needs no lock: the pages are this
    /// processor's alone until it reports them.
    fn work(&mut self)
        requires stands { (base : Ground) × stands self.old base }
        ensures works { Works (seen self.old) (seen self.new) }
        ensures stands { (base : Ground) → stands self.old base → stands self.new base }
        ensures never_fails_kept { never_fails self.old → never_fails self.new };

    /// Makes the next entry over the memory, or is blocked: exactly where there is no next event, as another processor's open
    /// claim is in the way, or is for a block that an allocation waits for. After an error nothing has changed but room, and no
    /// claim is open: with an open claim a step can't fail. `NoRoom::Worn` with the stamp comes exactly where no claim is open
    /// and the greatest stamp before the step is 2^64 or more.
    fn step_memory(&mut self, alloc: Global, memory: &mut Memory) -> Result<Stepped, NoRoom>
        requires need { need_of (seen self.old) ≡ Need.Memory }
        requires worked { IsWorked (seen self.old) }
        requires stands { (areas : List AreaValue) × stands self.old (ground_of memory.old areas) }
        ensures stands { (areas : List AreaValue) → stands self.old (ground_of memory.old areas)
            → stands self.new (ground_of memory.new areas) }
        ensures event { result ≡ Ok Stepped.Event
            → MakesInMemory (seen self.old) (seen self.new) memory.old memory.new }
        ensures blocked { result ≡ Ok Stepped.Blocked → (seen self.new ≡ seen self.old)
            × RoomAlone memory.old memory.new × IsBlocked (seen self.old) memory.old.entries }
        ensures refused { OnErr result ((seen self.new ≡ seen self.old)
            × RoomAlone memory.old memory.new × ((seen self.old).out ≡ None)) }
        ensures worn { (stamp : ℕ) → result ≡ Err (NoRoom.Worn stamp)
            → (2 ^ 64 ≤ stamp) × (stamp ≡ stamp_before (seen self.old) memory.old) }
        ensures worn_first { (seen self.old).out ≡ None
            → 2 ^ 64 ≤ stamp_before (seen self.old) memory.old
            → result ≡ Err (NoRoom.Worn (stamp_before (seen self.old) memory.old)) }
        ensures never_fails_kept { never_fails self.old → never_fails self.new };

    /// Makes the next entry in the area that it needs: a look for slots, or an access to bytes of the pool. It is never blocked
    /// there. After an error nothing has changed but room. `NoRoom::Worn` with the stamp comes exactly where the greatest stamp
    /// before the step is 2^64 or more.
    fn step_area(&mut self, alloc: Global, area: &mut Area) -> Result<(), NoRoom>
        requires need { need_of (seen self.old) ≡ Need.Area area.old.number }
        requires stands { (base : Ground) × HasArea base area.old × stands self.old base }
        ensures stands { (base : Ground) → HasArea base area.old → stands self.old base
            → stands self.new (with_area base area.new) }
        ensures event { OnOk result
            (MakesInArea (seen self.old) (seen self.new) area.old area.new) }
        ensures refused { OnErr result ((seen self.new ≡ seen self.old)
            × AreaRoomAlone area.old area.new) }
        ensures worn { (stamp : ℕ) → result ≡ Err (NoRoom.Worn stamp)
            → (2 ^ 64 ≤ stamp) × (stamp ≡ stamp_in (seen self.old) area.old) }
        ensures worn_first { 2 ^ 64 ≤ stamp_in (seen self.old) area.old
            → result ≡ Err (NoRoom.Worn (stamp_in (seen self.old) area.old)) }
        ensures never_fails_kept { never_fails self.old → never_fails self.new };

    /// Makes the next entry by itself: a command that is refused, one about the bytes of the processor's own blocks, or a copy
    /// that its mapping doesn't ask for. It ends without any lock. After an error nothing has changed but room. `NoRoom::Worn`
    /// with the stamp comes exactly where the processor's greatest stamp is 2^64 or more.
    fn step_own(&mut self, alloc: Global) -> Result<(), NoRoom>
        requires need { need_of (seen self.old) ≡ Need.Own }
        requires stands { (base : Ground) × stands self.old base }
        ensures stands { (base : Ground) → stands self.old base → stands self.new base }
        ensures event { OnOk result (MakesOwn (seen self.old) (seen self.new)) }
        ensures refused { OnErr result (seen self.new ≡ seen self.old) }
        ensures worn { (stamp : ℕ) → result ≡ Err (NoRoom.Worn stamp)
            → (2 ^ 64 ≤ stamp) × (stamp ≡ greatest_stamp (seen self.old).moved) }
        ensures worn_first { 2 ^ 64 ≤ greatest_stamp (seen self.old).moved
            → result ≡ Err (NoRoom.Worn (greatest_stamp (seen self.old).moved)) }
        ensures never_fails_kept { never_fails self.old → never_fails self.new };

    ghost told: { (c : Self) (base : Ground) → stands c base → Stands (seen c) base };

    ghost left_standing: { (c : Self) (left found : Ground) → stands c left
        → FoundAgain (seen c).number left found → stands c found };
}
