//! How the locks of areas hand out their passes, and take them back.
ghost use Rattle.std.specs.Prelude.{ℕ, ◌≡◌, ◌<◌, ◌≤◌, [], All, IfOk, OnOk, map, length, vec_len, vec_capacity, slice_index_or};
ghost use Rattle.guest_base.specs.declared.limits.TheConstants.{MAX_CPUS};
ghost use Rattle.guest_threads.specs.Dealt.{Adds, AreAllOf, Gains, HasRoom, IsRoomFor, Opened, first_passes};

use crate::locks::{Homes, Passes};
use claim_lock::{ClaimLock, Pass};
use io_areas::Area;
use memory_core::Memory;
use std::alloc::{AllocError, Global};
use std::mem;

/// The passes of each processor, with none for an area yet.
pub(crate) fn seated_at_memory(
    alloc: Global,
    passes: Vec<Pass<Memory>>,
) -> Result<Vec<Passes>, AllocError>
    ensures memory { IfOk result (λ all. map (λ p. p.memory) all.items ≡ passes.items) }
    ensures none { IfOk result (λ all. All (λ p. p.areas.items ≡ []) all.items) }
{
    let mut all = Vec::with_capacity(alloc, passes.len())?;
    for memory in passes {
        let areas = Vec::new(alloc);
        all.push(Passes { memory, areas })?;
    }
    Ok(all)
}

/// Puts areas with no entries under locks, and hands their passes out.
pub(crate) fn lock_areas(
    alloc: Global,
    areas: Vec<Area>,
    seats: u32,
    all: &mut Vec<Passes>,
) -> Result<Vec<ClaimLock<Area>>, AllocError>
    requires seats { (1 ≤ seats) × (seats ≤ MAX_CPUS) }
    requires count { vec_len all.old ≡ seats }
    requires none { All (λ p. p.areas.items ≡ []) all.old.items }
    requires entries { All (λ area. area.moved ≡ []) areas.items }
    ensures count { IfOk result (λ locks. length locks.items ≡ length areas.items) }
    ensures seats { IfOk result (λ locks. All (λ lock. lock.seats ≡ seats) locks.items) }
    ensures all { vec_len all.new ≡ vec_len all.old }
    ensures memory { OnOk result ((k : ℕ) (d : _) → k < vec_len all.old
        → (slice_index_or all.new.items k d).memory ≡ (slice_index_or all.old.items k d).memory) }
    ensures passes { IfOk result (λ locks. (k : ℕ) (d : _) → k < vec_len all.old
        → (slice_index_or all.new.items k d).areas.items
        ≡ first_passes locks.items areas.items k) }
{
    let mut locks = Vec::with_capacity(alloc, areas.len())?;
    for area in areas {
        let (lock, passes) = ClaimLock::new(alloc, area, seats)?;
        locks.push(lock)?;
        hand_out(passes, all)?;
    }
    Ok(locks)
}

/// Gives all processors their passes for a further area.
fn hand_out(passes: Vec<Pass<Area>>, all: &mut Vec<Passes>) -> Result<(), AllocError>
    requires { vec_len passes ≡ vec_len all.old }
    ensures count { vec_len all.new ≡ vec_len all.old }
    ensures gains { OnOk result ((k : ℕ) (d : _) (e : _) → k < vec_len all.old
        → Gains (slice_index_or all.old.items k d) (slice_index_or all.new.items k d)
        (slice_index_or passes.items k e)) }
{
    let mut cpu = 0;
    for pass in passes {
        gain(&mut all[cpu], pass)?;
        cpu += 1;
    }
    Ok(())
}

/// Gives a processor its pass for a further area.
fn gain(mine: &mut Passes, pass: Pass<Area>) -> Result<(), AllocError>
    ensures { OnOk result (Gains mine.old mine.new pass) }
{
    mine.areas.push(pass)?;
    Ok(())
}

impl Homes {
    /// Room for the passes of this many processors, and this many areas.
    pub(crate) fn with_room(alloc: Global, cpus: usize, areas: usize) -> Result<Homes, AllocError>
        ensures { IfOk result (λ homes. HasRoom homes cpus areas) }
    {
        Ok(Homes {
            memory: Vec::with_capacity(alloc, cpus)?,
            areas: rooms(alloc, cpus, areas)?,
            opened: Vec::with_capacity(alloc, areas)?,
        })
    }
}

/// Room for the passes of this many processors, for each area.
fn rooms(alloc: Global, cpus: usize, areas: usize) -> Result<Vec<Vec<Pass<Area>>>, AllocError>
    ensures count { IfOk result (λ rooms. vec_len rooms ≡ areas) }
    ensures each { IfOk result (λ rooms. All (IsRoomFor cpus) rooms.items) }
{
    let mut rooms = Vec::with_capacity(alloc, areas)?;
    for _ in 0..areas {
        rooms.push(Vec::with_capacity(alloc, cpus)?)?;
    }
    Ok(rooms)
}

/// Puts all passes together by their locks, those of a lock in the order of the processors.
pub(crate) fn gather(
    all: Vec<Passes>,
    memory: &mut Vec<Pass<Memory>>,
    areas: &mut Vec<Vec<Pass<Area>>>,
)
    requires memory { IsRoomFor (length all.items) memory.old }
    requires counts { All (λ p. length p.areas.items ≡ vec_len areas.old) all.items }
    requires areas { All (IsRoomFor (length all.items)) areas.old.items }
    ensures memory { memory.new.items ≡ map (λ p. p.memory) all.items }
    ensures count { vec_len areas.new ≡ vec_len areas.old }
    ensures areas { (n : ℕ) (d : _) (e : _) → n < vec_len areas.old
        → (slice_index_or areas.new.items n d).items
        ≡ map (λ p. slice_index_or p.areas.items n e) all.items }
{
    for passes in all {
        let Passes {
            memory: pass,
            areas: others,
        } = passes;
        memory.push_reserved(pass);
        put_away(others, areas);
    }
}

/// Puts a processor's passes for areas to those of the processors before.
fn put_away(passes: Vec<Pass<Area>>, areas: &mut Vec<Vec<Pass<Area>>>)
    requires count { length passes.items ≡ vec_len areas.old }
    requires room { (n : ℕ) (d : _) → n < vec_len areas.old
        → vec_len (slice_index_or areas.old.items n d)
        < vec_capacity (slice_index_or areas.old.items n d) }
    ensures count { vec_len areas.new ≡ vec_len areas.old }
    ensures added { (n : ℕ) (d : _) (e : _) → n < vec_len areas.old
        → Adds (slice_index_or areas.old.items n d) (slice_index_or areas.new.items n d)
        (slice_index_or passes.items n e) }
{
    let mut area = 0;
    for pass in passes {
        areas[area].push_reserved(pass);
        area += 1;
    }
}

/// Opens the locks of areas, with all their passes.
pub(crate) fn open_areas(
    alloc: Global,
    locks: Vec<ClaimLock<Area>>,
    passes: Vec<Vec<Pass<Area>>>,
    opened: Vec<Area>,
) -> Vec<Area>
    requires count { vec_len passes ≡ vec_len locks }
    requires room { (opened.items ≡ []) × (vec_len locks ≤ vec_capacity opened) }
    requires all { (n : ℕ) (d : _) (e : _) → n < vec_len locks
        → AreAllOf (slice_index_or locks.items n d) (slice_index_or passes.items n e).items }
    ensures count { vec_len result ≡ vec_len locks }
    ensures opened { (n : ℕ) (d : _) (e : _) → n < vec_len locks
        → Opened (slice_index_or passes.items n d).items (slice_index_or result.items n e) }
{
    let mut passes = passes;
    let mut opened = opened;
    for lock in locks {
        let at = opened.len();
        let back = mem::replace(&mut passes[at], Vec::new(alloc));
        opened.push_reserved(open_area(lock, back));
    }
    opened
}

/// Opens the lock of an area, with all its passes.
fn open_area(lock: ClaimLock<Area>, passes: Vec<Pass<Area>>) -> Area
    requires { AreAllOf lock passes.items }
    ensures { Opened passes.items result }
{
    let area = lock.close(passes);
    area.show_standing();
    area
}
