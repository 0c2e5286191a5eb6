//! A small state under the lock: one number for each processor, and threads that count. Only tests call it; it stands
//! outside of them so that the must-fail edits reach it.
ghost use Rattle.std.specs.Prelude.{◌≡◌, ◌≢◌, ℕ, ◌+◌, ◌<◌, ◌≤◌, List, [], ◌∷◌, ◌++◌, None, Some, All, IfOk, length, slice_index, slice_index_or, vec_len};
ghost use Rattle.event_core.specs.Moved.{Moved, made_by};
ghost use Rattle.claim_lock.specs.Tallied.{nothing_fixed, numbered, Ready};

use crate::{ClaimLock, Parted, Pass};
use event_core::{Entry, Event, Place};
use guest_base::CpuNo;
use std::alloc::{AllocError, Global};
use std::marker::Model;
use std::sync::Wait;
use std::thread;
use std::thread::Threads;

// An entry, and the one byte that it moved.
#[derive(Drop)]
pub struct Note {
    entry: Entry,
    byte: u8,
}

impl Model for Note {
    ghost use Rattle.std.specs.Prelude.{[], ◌∷◌};
    ghost use Rattle.event_core.specs.Moved.{Moved};

    ghost Value = { Moved };

    ghost view = { λ n. record { entry = n.entry; bytes = n.byte ∷ [] } };
}

impl Note {
    fn new(cpu: u32, cmd: u32) -> Note
        ensures { (result.entry.cpu.0 ≡ cpu) × (result ≡ record {
          entry = record {
            stamp = cmd;
            cpu = record { 0 = cpu };
            cmd = cmd;
            place = Place.Own;
            event = Event.Own;
            reply = None;
          };
          bytes = 7 ∷ [];
        }) }
    {
        Note {
            entry: Entry {
                stamp: u128::from(cmd),
                cpu: CpuNo(cpu),
                cmd,
                place: Place::Own,
                event: Event::Own,
                reply: None,
            },
            byte: 7,
        }
    }
}

// How often each processor counted, and an entry for each time.
#[derive(Drop)]
pub struct Tally {
    pub counts: [u32; 64],
    pub notes: Vec<Note>,
}

impl Parted for Tally {
    ghost fixed = { λ t. nothing_fixed };

    ghost part = { λ t cpu. numbered (slice_index t.counts cpu) };

    ghost moved = { λ t. t.notes.items };
}

impl Tally {
    fn new(alloc: Global) -> Tally
        ensures counts { (cpu : ℕ) → cpu < 64 → slice_index result.counts cpu ≡ 0 }
        ensures notes { result.notes.items ≡ [] }
    {
        Tally {
            counts: [0; 64],
            notes: Vec::new(alloc),
        }
    }

    // Counts for a processor, and keeps the entry twice; nothing is done where memory runs out, or at the last count.
    fn count(&mut self, cpu: u32, made: &mut Vec<Note>)
        requires cpu { cpu < 64 }
        requires number { slice_index self.old.counts cpu ≡ length made.old.items }
        ensures number { slice_index self.new.counts cpu ≡ length made.new.items }
        ensures others { (other : ℕ) → other ≢ cpu
            → slice_index self.new.counts other ≡ slice_index self.old.counts other }
        ensures notes { (new : List Moved)
            × (self.new.notes.items ≡ self.old.notes.items ++ new)
            × (made.new.items ≡ made.old.items ++ new)
            × All (λ m. m.entry.cpu.0 ≡ cpu) new }
    {
        if self.notes.reserve(1).is_err() || made.reserve(1).is_err() {
            return;
        }
        let cmd = self.counts[cpu as usize];
        let Some(next) = cmd.checked_add(1) else {
            return;
        };
        self.counts[cpu as usize] = next;
        self.notes.push_reserved(Note::new(cpu, cmd));
        made.push_reserved(Note::new(cpu, cmd));
    }
}

// One processor's pass, and the entries that it made.
#[derive(Drop)]
struct Desk {
    cpu: u32,
    pass: Option<Pass<Tally>>,
    made: Vec<Note>,
}

// Takes the lock this many times, and counts each time.
fn work<R: Wait>(rt: &R, lock: &ClaimLock<Tally>, desk: &mut Desk, rounds: u32)
    requires cpu { desk.old.cpu < 64 }
    requires ready { Ready lock.now desk.old.cpu desk.old.pass desk.old.made.items }
    ensures cpu { desk.new.cpu ≡ desk.old.cpu }
    ensures ready { Ready lock.now desk.new.cpu desk.new.pass desk.new.made.items }
{
    for _ in 0..rounds {
        round(rt, lock, desk);
    }
}

fn round<R: Wait>(rt: &R, lock: &ClaimLock<Tally>, desk: &mut Desk)
    requires cpu { desk.old.cpu < 64 }
    requires ready { Ready lock.now desk.old.cpu desk.old.pass desk.old.made.items }
    ensures cpu { desk.new.cpu ≡ desk.old.cpu }
    ensures ready { Ready lock.now desk.new.cpu desk.new.pass desk.new.made.items }
{
    let Some(pass) = desk.pass.take() else {
        unreachable!()
    };
    desk.pass = Some(counted(rt, lock, pass, desk.cpu, &mut desk.made));
}

fn counted<R: Wait>(
    rt: &R,
    lock: &ClaimLock<Tally>,
    pass: Pass<Tally>,
    cpu: u32,
    made: &mut Vec<Note>,
) -> Pass<Tally>
    requires cpu { cpu < 64 }
    requires ready { Ready lock.now cpu (Some pass) made.old.items }
    ensures { Ready lock.now cpu (Some result) made.new.items }
{
    let mut held = lock.take(rt, pass);
    held.state().count(cpu, made);
    lock.give(held)
}

// A desk for each pass, in order.
fn seated(
    alloc: Global,
    lock: &ClaimLock<Tally>,
    passes: Vec<Pass<Tally>>,
) -> Result<Vec<Desk>, AllocError>
    requires ready { (k : ℕ) (d : _) → k < length passes.items
        → Ready lock.now k (Some (slice_index_or passes.items k d)) [] }
    requires few { length passes.items ≤ 64 }
    ensures count { IfOk result (λ v. length v.items ≡ length passes.items) }
    ensures ready { IfOk result (λ v. (k : ℕ) (d : _) → k < length v.items
        → ((slice_index_or v.items k d).cpu ≡ k)
        × Ready lock.now k
        (slice_index_or v.items k d).pass (slice_index_or v.items k d).made.items) }
{
    let mut desks = Vec::with_capacity(alloc, passes.len())?;
    let mut cpu = 0;
    for pass in passes {
        desks.push(Desk {
            cpu,
            pass: Some(pass),
            made: Vec::new(alloc),
        })?;
        cpu += 1;
    }
    Ok(desks)
}

// The passes and the entries of all desks, in order.
fn cleared(
    alloc: Global,
    lock: &ClaimLock<Tally>,
    desks: Vec<Desk>,
) -> Result<(Vec<Pass<Tally>>, Vec<Vec<Note>>), AllocError>
    requires { (k : ℕ) (d : _) → k < length desks.items
        → Ready lock.now k
        (slice_index_or desks.items k d).pass (slice_index_or desks.items k d).made.items }
    ensures passes { IfOk result (λ r. length r.0.items ≡ length desks.items) }
    ensures made { IfOk result (λ r. length r.1.items ≡ length desks.items) }
    ensures ready { IfOk result (λ r. (k : ℕ) (d : _) (e : _) → k < length desks.items
        → Ready lock.now k
        (Some (slice_index_or r.0.items k d)) (slice_index_or r.1.items k e).items) }
{
    let mut passes = Vec::with_capacity(alloc, desks.len())?;
    let mut all_made = Vec::with_capacity(alloc, desks.len())?;
    for desk in desks {
        let Desk { cpu: _, pass, made } = desk;
        let Some(pass) = pass else { unreachable!() };
        passes.push(pass)?;
        all_made.push(made)?;
    }
    Ok((passes, all_made))
}

// Lets this many processors count in threads of their own. Of each of them the state has just the entries that it made, and
// their number.
pub fn tallied<R: Threads + Wait + Sync>(
    rt: &R,
    alloc: Global,
    seats: u32,
    rounds: u32,
) -> Result<(Tally, Vec<Vec<Note>>), AllocError>
    requires { (1 ≤ seats) × (seats ≤ 64) }
    ensures count { IfOk result (λ r. length r.1.items ≡ seats) }
    ensures entries { IfOk result (λ r. (cpu : ℕ) (d : _) → cpu < seats
        → made_by cpu r.0.notes.items ≡ (slice_index_or r.1.items cpu d).items) }
    ensures numbers { IfOk result (λ r. (cpu : ℕ) (d : _) → cpu < seats
        → slice_index r.0.counts cpu ≡ length (slice_index_or r.1.items cpu d).items) }
    ensures named { IfOk result (λ r. All (λ m. m.entry.cpu.0 < seats) r.0.notes.items) }
{
    let (lock, passes) = ClaimLock::new(alloc, Tally::new(alloc), seats)?;
    let mut desks = seated(alloc, &lock, passes)?;
    worked(rt, &lock, &mut desks, rounds);
    let (passes, made) = cleared(alloc, &lock, desks)?;
    Ok((lock.close(passes), made))
}

// Lets each desk work in a thread of its own.
fn worked<R: Threads + Wait + Sync>(
    rt: &R,
    lock: &ClaimLock<Tally>,
    desks: &mut Vec<Desk>,
    rounds: u32,
)
    requires few { (1 ≤ length desks.old.items) × (length desks.old.items ≤ 64) }
    requires ready { (k : ℕ) (d : _) → k < length desks.old.items
        → ((slice_index_or desks.old.items k d).cpu ≡ k)
        × Ready lock.now k
        (slice_index_or desks.old.items k d).pass (slice_index_or desks.old.items k d).made.items }
    ensures count { length desks.new.items ≡ length desks.old.items }
    ensures ready { (k : ℕ) (d : _) → k < length desks.new.items
        → Ready lock.now k
        (slice_index_or desks.new.items k d).pass (slice_index_or desks.new.items k d).made.items }
{
    let threads = desks.len();
    let serve = |_: usize, desk: &mut Desk|
        requires { (desk.now.cpu < 64)
            × Ready lock.now desk.now.cpu desk.now.pass desk.now.made.items }
        ensures { (desk.exit.now.cpu ≡ desk.entry.now.cpu)
            × Ready lock.entry.now desk.exit.now.cpu desk.exit.now.pass desk.exit.now.made.items }
    { work(rt, lock, desk, rounds) };
    thread::for_each_mut(rt, desks.as_mut_slice(), threads, &serve);
}
