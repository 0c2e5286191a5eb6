//! A place for each processor, at which a thread runs it.
ghost use Rattle.std.specs.Prelude.{ℕ, ◌≡◌, ◌≢◌, ◌<◌, ◌≤◌, [], Some, Err, All, Any, IfOk, IsOk, OnOk, length, map, slice_index_or, vec_len, vec_capacity};
ghost use Rattle.guest_steps.specs.Running.{AllFinished, AllStand, AtFirst, EachLater};
ghost use Rattle.guest_threads.specs.Dealt.{HasRoom};
ghost use Rattle.guest_threads.specs.Seated.{AllSeated};
ghost use Rattle.guest_threads.specs.Places.{SeatedAt, HasPasses, IsFinished, IsRefused, RanAt, passes_at, processors_at};
ghost use Rattle.event_core.specs.declared.clock.NoRoom.{NoRoom as NoRoomValue};
ghost use Rattle.guest_steps.specs.Ground.{Ground, ground_of};

use crate::locks::{Homes, Locks, Passes};
use crate::one::{Driven, run_one};
use crate::seats::{lock_all, unlock_all};
use event_core::NoRoom;
use guest_steps::{Processor, stamps_stay_small};
use io_areas::Area;
use memory_core::Memory;
use std::alloc::{AllocError, Global};
use std::sync::Wait;
use std::thread;
use std::thread::Threads;

// A processor, its passes, and how its run ended.
pub struct Place<T> {
    processor: T,
    passes: Option<Passes>,
    answer: Result<(), NoRoom>,
}

/// Runs processors on threads, one for each, until every script has its replies. They meet in the locks of the memory and of the
/// areas alone. The processor number n stands at place n, and stands there again afterwards, whatever the answer.
///
/// An error comes only where memory runs out, before the threads start or in one of them. The processors then stand as their
/// entries so far left them, over a memory and areas that are dropped. It waits for the threads, and that these get on isn't
/// promised.
pub fn run_threads<R: Threads + Wait + Sync, T: Processor>(
    rt: &R,
    alloc: Global,
    memory: Memory,
    areas: Vec<Area>,
    processors: &mut Vec<T>,
) -> Result<(Memory, Vec<Area>), AllocError>
    requires stand { AllStand T.seen T.stands memory.boot processors.old.items
        (ground_of memory areas.items) }
    requires first { AtFirst (map T.seen processors.old.items) (ground_of memory areas.items) }
    ensures stand { (left : Ground) × IfOk result (λ after. ground_of after.0 after.1.items ≡ left)
        × AllStand T.seen T.stands memory.boot processors.new.items left }
    ensures later { EachLater T.seen T.never_fails processors.old.items processors.new.items }
    ensures finished { OnOk result (AllFinished (map T.seen processors.new.items)) }
{
    if processors.is_empty() {
        return Ok((memory, areas));
    }
    let (locks, passes, homes) = lock_all(alloc, memory, areas, processors)?;
    let places = Vec::with_capacity(alloc, processors.len())?;
    let (left, answer) = run_locked(rt, alloc, locks, passes, homes, places, processors);
    answered(left, answer)
}

// Runs the processors of locks on threads, and takes the memory and the areas out of them again. No processor runs out of stamps.
fn run_locked<R: Threads + Wait + Sync, T: Processor>(
    rt: &R,
    alloc: Global,
    locks: Locks,
    passes: Vec<Passes>,
    homes: Homes,
    places: Vec<Place<T>>,
    processors: &mut Vec<T>,
) -> ((Memory, Vec<Area>), Result<(), NoRoom>)
    requires seated { AllSeated T.seen T.stands locks passes.items processors.old.items }
    requires homes { HasRoom homes (length passes.items) (length locks.areas.items) }
    requires room { (places.items ≡ []) × (vec_len processors.old ≤ vec_capacity places) }
    ensures stand { AllStand T.seen T.stands result.0.0.boot processors.new.items
        (ground_of result.0.0 result.0.1.items) }
    ensures later { EachLater T.seen T.never_fails processors.old.items processors.new.items }
    ensures finished { OnOk result.1 (AllFinished (map T.seen processors.new.items)) }
    ensures never_worn { (stamp : ℕ) → result.1 ≢ Err (NoRoomValue.Worn stamp) }
{
    let mut passes = passes;
    let mut places = places;
    seat_all(processors, &mut passes, &mut places);
    run_all(rt, alloc, &locks, &mut places);
    let answer = leave_all(places, processors, &mut passes);
    let left = unlock_all(alloc, locks, homes, passes, processors);
    stamps_stay_small();
    (left, answer)
}

// The memory and the areas, if no processor was refused.
fn answered(
    left: (Memory, Vec<Area>),
    answer: Result<(), NoRoom>,
) -> Result<(Memory, Vec<Area>), AllocError>
    requires { (stamp : ℕ) → answer ≢ Err (NoRoomValue.Worn stamp) }
    ensures left { IfOk result (λ after. after ≡ left) }
    ensures ok { OnOk result (IsOk answer) }
{
    match answer {
        Ok(()) => Ok(left),
        Err(NoRoom::NoMemory) => Err(AllocError),
        Err(NoRoom::Worn(_)) => unreachable!(),
    }
}

// Each processor at a place with its passes. The last one comes first.
fn seat_all<T: Processor>(
    processors: &mut Vec<T>,
    passes: &mut Vec<Passes>,
    places: &mut Vec<Place<T>>,
)
    requires count { vec_len processors.old ≡ vec_len passes.old }
    requires room { (places.old.items ≡ []) × (vec_len passes.old ≤ vec_capacity places.old) }
    ensures processors { processors_at places.new.items ≡ processors.old.items }
    ensures passes { passes_at places.new.items ≡ map Some passes.old.items }
    ensures emptied { (processors.new.items ≡ []) × (passes.new.items ≡ []) }
    ensures processor_room { vec_capacity processors.new ≡ vec_capacity processors.old }
    ensures pass_room { vec_capacity passes.new ≡ vec_capacity passes.old }
{
    while let Some(mine) = passes.pop() {
        places.push_reserved(Place {
            processor: processors.take_last(),
            passes: Some(mine),
            answer: Ok(()),
        });
    }
}

// Runs the processors on threads.
fn run_all<R: Threads + Wait + Sync, T: Processor>(
    rt: &R,
    alloc: Global,
    locks: &Locks,
    places: &mut Vec<Place<T>>,
)
    requires some { 1 ≤ vec_len places.old }
    requires seated { All (SeatedAt T.seen T.stands locks.now) places.old.items }
    ensures count { vec_len places.new ≡ vec_len places.old }
    ensures ran { (k : ℕ) (d : _) → k < vec_len places.old
        → RanAt T.seen T.stands T.never_fails locks.now
        (slice_index_or places.old.items k d) (slice_index_or places.new.items k d) }
{
    let threads = places.len();
    let run = |_: usize, place: &mut Place<T>|
        requires { SeatedAt T.seen T.stands locks.now place.now }
        ensures { RanAt T.seen T.stands T.never_fails locks.entry.now
            place.entry.now place.exit.now }
    { run_at(rt, alloc, locks, place) };
    thread::for_each_mut(rt, places.as_mut_slice(), threads, &run);
}

// Runs the processor of a place.
fn run_at<R: Wait, T: Processor>(rt: &R, alloc: Global, locks: &Locks, place: &mut Place<T>)
    requires { SeatedAt T.seen T.stands locks.now place.old }
    ensures { RanAt T.seen T.stands T.never_fails locks.now place.old place.new }
{
    let Some(passes) = place.passes.take() else {
        unreachable!()
    };
    let Driven { passes, answer } = run_one(rt, alloc, locks, passes, &mut place.processor);
    place.passes = Some(passes);
    place.answer = answer;
}

// The processors and the passes of all places, in their order again. An error is that of a processor that was refused.
fn leave_all<T: Processor>(
    places: Vec<Place<T>>,
    processors: &mut Vec<T>,
    passes: &mut Vec<Passes>,
) -> Result<(), NoRoom>
    requires passes { All HasPasses places.items }
    requires empty { (processors.old.items ≡ []) × (passes.old.items ≡ []) }
    requires processor_room { vec_len places ≤ vec_capacity processors.old }
    requires pass_room { vec_len places ≤ vec_capacity passes.old }
    ensures processors { processors.new.items ≡ processors_at places.items }
    ensures passes { map Some passes.new.items ≡ passes_at places.items }
    ensures ok { OnOk result (All IsFinished places.items) }
    ensures refused { (refusal : NoRoomValue) → result ≡ Err refusal
        → Any (IsRefused refusal) places.items }
{
    let mut places = places;
    let mut refused = Ok(());
    while let Some(place) = places.pop() {
        let Place {
            processor,
            passes: back,
            answer,
        } = place;
        let Some(mine) = back else { unreachable!() };
        processors.push_reserved(processor);
        passes.push_reserved(mine);
        refused = refused.and(answer);
    }
    places.destroy_empty();
    refused
}
