//! The entries that a processor made, with the bytes that they moved.
ghost use Rattle.std.specs.Prelude.{◌≡◌, [], ◌∷◌, ◌++◌, ◌^◌, ◌<◌, ◌≤◌, ◌+◌, OnOk};
ghost use Rattle.event_core.specs.Legal.{greatest_stamp};
ghost use Rattle.event_core.specs.Moved.{entries_of};
ghost use Rattle.event_core.specs.Own.{replied};

use event_core::{Entries, Entry, Event, Place, Reply, Turn};
use guest_base::{Bytes, CpuNo, Items};
use std::alloc::{AllocError, Global};
use std::marker::Model;

/// The entries that a processor made with the bytes that they moved into or out of the pool, with the count of their replies and
/// their greatest stamp.
///
/// Contracts see the entries with these bytes, and for how many more there is room.
#[derive(Drop)]
pub(crate) struct MadeEntries {
    entries: Vec<Entry>,
    /// The bytes that each entry moved.
    moves: Vec<Bytes>,
    /// The number of entries that can be added.
    room: u64,
    /// The number of entries with a reply.
    replies: u64,
    /// The greatest stamp, 0 where there is no entry.
    clock: u128,
    alloc: Global,
}

impl Model for MadeEntries {
    ghost use Rattle.io_areas.specs.Transfers.{with_bytes};
    ghost use Rattle.guest_cpu.specs.Made.{Made, MadeStand};

    ghost Value = { Made };

    ghost view = { λ m. record {
      moved = with_bytes m.entries.items m.moves.items;
      room = m.room;
    } };

    ghost invariant = { λ m. MadeStand m.entries m.moves m.room m.replies m.clock };
}

impl MadeEntries {
    ghost use Rattle.event_core.specs.declared.entry.Place.TheVariants.{Memory as InMemory};
    ghost use Rattle.memory_core.specs.UnderLock.{unmoved};
    ghost use Rattle.guest_cpu.specs.Made.{entry_at, turn_of};

    /// No entries, and no room.
    pub(crate) fn new(alloc: Global) -> MadeEntries
        ensures { result.moved ≡ [] }
    {
        MadeEntries {
            entries: Vec::new(alloc),
            moves: Vec::new(alloc),
            room: 0,
            replies: 0,
            clock: 0,
            alloc,
        }
    }

    /// Takes room for `count` more entries.
    pub(crate) fn reserve(&mut self, count: u64) -> Result<(), AllocError>
        ensures ok { OnOk result (count ≤ self.new.room) }
        ensures room { self.old.room ≤ self.new.room }
        ensures moved { self.new.moved ≡ self.old.moved }
    {
        if self.room < count {
            self.entries.reserve(count as usize)?;
            self.moves.reserve(count as usize)?;
            self.room = count;
        }
        Ok(())
    }

    /// The count of replies.
    pub(crate) fn replies(&self) -> u64
        ensures { result ≡ replied self.now.moved }
    {
        self.replies
    }

    /// The greatest stamp, 0 where there is no entry.
    pub(crate) fn clock(&self) -> u128
        ensures { result ≡ greatest_stamp self.now.moved }
    {
        self.clock
    }

    /// The processor's next turn.
    pub(crate) fn turn(&self, cpu: CpuNo) -> Turn
        requires { replied self.now.moved < 2 ^ 32 }
        ensures { result ≡ turn_of cpu.0 self.now.moved }
    {
        Turn {
            cpu,
            cmd: self.replies as u32,
            clock: self.clock,
        }
    }

    /// Adds an entry that moved these bytes, in the room that was taken.
    pub(crate) fn add(&mut self, entry: Entry, bytes: Bytes)
        requires { 0 < self.old.room }
        ensures moved { self.new.moved
            ≡ self.old.moved ++ record { entry = entry; bytes = bytes } ∷ [] }
        ensures room { self.old.room ≡ self.new.room + 1 }
    {
        self.replies += u64::from(entry.reply.is_some());
        self.clock = self.clock.max(entry.stamp);
        self.entries.push_reserved(entry);
        self.moves.push_reserved(bytes);
        self.room -= 1;
    }

    /// Adds an entry under the lock of a place that moved these bytes, by the turn behind it, in the room that was taken.
    pub(crate) fn add_at(
        &mut self,
        turn: Turn,
        place: Place,
        event: Event,
        reply: Option<Reply>,
        bytes: Bytes,
    )
        requires { 0 < self.old.room }
        ensures moved { self.new.moved ≡ self.old.moved
            ++ record { entry = entry_at turn place event reply; bytes = bytes } ∷ [] }
        ensures room { self.old.room ≡ self.new.room + 1 }
    {
        let entry = Entry {
            stamp: turn.clock,
            cpu: turn.cpu,
            cmd: turn.cmd,
            place,
            event,
            reply,
        };
        self.add(entry, bytes);
    }

    /// Adds an entry that moves no byte, at the memory or the processor's own, by the turn behind it, in the room that was taken.
    pub(crate) fn add_bare(&mut self, turn: Turn, place: Place, event: Event, reply: Option<Reply>)
        requires { 0 < self.old.room }
        ensures moved { self.new.moved
            ≡ self.old.moved ++ unmoved (entry_at turn place event reply) ∷ [] }
        ensures room { self.old.room ≡ self.new.room + 1 }
    {
        let none = Bytes::new(self.alloc);
        self.add_at(turn, place, event, reply, none);
    }

    /// Adds an entry under the memory's lock, by the turn behind it, in the room that was taken.
    pub(crate) fn add_there(&mut self, turn: Turn, event: Event, reply: Option<Reply>)
        requires { 0 < self.old.room }
        ensures moved { self.new.moved
            ≡ self.old.moved ++ unmoved (entry_at turn InMemory event reply) ∷ [] }
        ensures room { self.old.room ≡ self.new.room + 1 }
    {
        self.add_bare(turn, Place::Memory, event, reply);
    }

    /// The entries.
    pub(crate) fn into_entries(self) -> Entries
        ensures { result ≡ entries_of self.moved }
    {
        let MadeEntries {
            entries,
            moves: _,
            room: _,
            replies: _,
            clock: _,
            alloc: _,
        } = self;
        Items::from_vec(entries)
    }
}
