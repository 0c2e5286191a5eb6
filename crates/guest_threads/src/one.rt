//! One processor, which runs over the locks that others use too.
ghost use Rattle.std.specs.Prelude.{◌≡◌, ◌<◌, ◌≤◌, vec_len, vec_capacity};
ghost use Rattle.std.specs.List.{insert};
ghost use Rattle.guest_steps.specs.Seen.{need_of};
ghost use Rattle.guest_steps.specs.Standing.{FollowsAll};
ghost use Rattle.guest_steps.specs.declared.processor.Need.{Need as NeedValue};
ghost use Rattle.guest_threads.specs.Seated.{Seated, Ran, seen_in};
ghost use Rattle.guest_threads.specs.Progress.{Progresses, gone_on as gone_by};

use crate::locks::{Locks, Passes};
use claim_lock::Pass;
use event_core::NoRoom;
use guest_steps::{Need, Processor, Stepped, needed_area_is_there};
use io_areas::Area;
use std::alloc::Global;
use std::sync::Wait;
use std::thread;

/// How a processor's run ended: its passes, and what refused the step that it couldn't make.
pub struct Driven {
    /// The processor's passes, with all that it knows of the memory and of the areas.
    pub passes: Passes,
    /// `Ok` where every command has its reply.
    pub answer: Result<(), NoRoom>,
}

/// Runs a processor's script to its end. It takes the memory's lock, or that of an area, for each step there, one at a time, and
/// gives it back right after; the calls of the secure module, and the events that the processor makes by itself, are made while
/// all locks are free. It waits where another one holds the lock, or has a claim open that is in the way or is for a block that it
/// waits for, and that it gets on isn't promised.
///
/// Each of its entries follows its own earlier ones and those before it in its place, which the passes have seen. `answer` is an
/// error where a step was refused: no claim of the processor is open then. `NoRoom::Worn` comes only with a stamp of 2^64 or more.
pub fn run_one<R: Wait, T: Processor>(
    rt: &R,
    alloc: Global,
    locks: &Locks,
    passes: Passes,
    processor: &mut T,
) -> Driven
    requires seated { Seated T.seen T.stands locks.now passes processor.old }
    ensures ran { Ran T.seen T.stands T.never_fails locks.now
        processor.old processor.new result.passes result.answer }
    ensures follows { FollowsAll (T.seen processor.new) (seen_in result.passes) }
{
    let mut passes = passes;
    for _ in rt.forever() {
        match next_step(rt, alloc, locks, passes, processor) {
            Progress::GoesOn(left) => passes = left,
            Progress::Ended(driven) => return driven,
        }
    }
    unreachable!()
}

// What came of a step.
enum Progress {
    // The processor has a next step, perhaps the same again.
    GoesOn(Passes),
    Ended(Driven),
}

fn next_step<R: Wait, T: Processor>(
    rt: &R,
    alloc: Global,
    locks: &Locks,
    passes: Passes,
    processor: &mut T,
) -> Progress
    requires seated { Seated T.seen T.stands locks.now passes processor.old }
    ensures { Progresses T.seen T.stands T.never_fails locks.now
        processor.old processor.new result }
{
    match processor.next_need() {
        Need::Finished => Progress::Ended(Driven {
            passes,
            answer: Ok(()),
        }),
        Need::Own => own_step(alloc, locks, passes, processor),
        Need::Memory => memory_step(rt, alloc, locks, passes, processor),
        Need::Area(number) => area_step(rt, alloc, locks, passes, processor, number),
    }
}

// A step with no lock.
fn own_step<T: Processor>(
    alloc: Global,
    locks: &Locks,
    passes: Passes,
    processor: &mut T,
) -> Progress
    requires seated { Seated T.seen T.stands locks.now passes processor.old }
    requires need { need_of (T.seen processor.old) ≡ NeedValue.Own }
    ensures { Progresses T.seen T.stands T.never_fails locks.now
        processor.old processor.new result }
{
    let answer = processor.step_own(alloc);
    gone_on(passes, answer)
}

// The work for a span that is out, and then a step under the memory's lock.
fn memory_step<R: Wait, T: Processor>(
    rt: &R,
    alloc: Global,
    locks: &Locks,
    passes: Passes,
    processor: &mut T,
) -> Progress
    requires seated { Seated T.seen T.stands locks.now passes processor.old }
    requires need { need_of (T.seen processor.old) ≡ NeedValue.Memory }
    ensures { Progresses T.seen T.stands T.never_fails locks.now
        processor.old processor.new result }
{
    let Passes {
        memory: pass,
        areas,
    } = passes;
    processor.work();
    let mut held = locks.memory.take(rt, pass);
    let memory = held.state();
    memory.show_rising();
    let stepped = processor.step_memory(alloc, memory);
    let memory = locks.memory.give(held);
    let passes = Passes { memory, areas };
    match stepped {
        Ok(Stepped::Event) => Progress::GoesOn(passes),
        Ok(Stepped::Blocked) => {
            thread::yield_now();
            Progress::GoesOn(passes)
        }
        Err(refusal) => Progress::Ended(Driven {
            passes,
            answer: Err(refusal),
        }),
    }
}

// A step under the lock of the area of a number.
fn area_step<R: Wait, T: Processor>(
    rt: &R,
    alloc: Global,
    locks: &Locks,
    passes: Passes,
    processor: &mut T,
    number: u32,
) -> Progress
    requires seated { Seated T.seen T.stands locks.now passes processor.old }
    requires need { need_of (T.seen processor.old) ≡ NeedValue.Area number }
    ensures { Progresses T.seen T.stands T.never_fails locks.now
        processor.old processor.new result }
{
    needed_area_is_there();
    let at = number as usize;
    let Passes { memory, mut areas } = passes;
    let pass = areas.remove(at);
    let lock = &locks.areas[at];
    let mut held = lock.take(rt, pass);
    let area = held.state();
    let answer = processor.step_area(alloc, area);
    let pass = lock.give(held);
    put_back(&mut areas, at, pass);
    gone_on(Passes { memory, areas }, answer)
}

// Puts a pass back where it was taken out.
fn put_back(areas: &mut Vec<Pass<Area>>, at: usize, pass: Pass<Area>)
    requires within { at ≤ vec_len areas.old }
    requires room { vec_len areas.old < vec_capacity areas.old }
    ensures { areas.new.items ≡ insert areas.old.items at pass }
{
    let Ok(()) = areas.insert(at, pass) else {
        unreachable!()
    };
}

// What came of a step that is never blocked.
fn gone_on(passes: Passes, answer: Result<(), NoRoom>) -> Progress
    ensures { result ≡ gone_by passes answer }
{
    match answer {
        Ok(()) => Progress::GoesOn(passes),
        Err(refusal) => Progress::Ended(Driven {
            passes,
            answer: Err(refusal),
        }),
    }
}
