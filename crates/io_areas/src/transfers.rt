//! The entries of an area with the bytes that they moved, in room that was taken ahead.
ghost use Rattle.std.specs.Prelude.{◌≡◌, ◌≢◌, ℕ, [], ◌∷◌, ◌++◌, ◌+◌, ◌^◌, ◌<◌, ◌≤◌, OnOk, OnErr, length, max, vec_capacity};
ghost use Rattle.event_core.specs.Legal.{greatest_stamp};
ghost use Rattle.event_core.specs.Locally.{Rising};
ghost use Rattle.event_core.specs.Moved.{entries_of};
ghost use Rattle.io_areas.specs.Transfers.{bare_by};

use event_core::{Entries, Entry, Event, NoRoom, Place, Turn, stamp_with};
use guest_base::{Bytes, Items};
use std::alloc::{AllocError, Global};
use std::marker::Model;
use std::mem;

/// The entries of an area with the bytes that they moved, and room for the next one: one more than the bytes that it may move.
#[derive(Drop)]
pub(crate) struct Transfers {
    entries: Vec<Entry>,
    /// The bytes that each entry moved.
    moves: Vec<Bytes>,
    /// The list for the bytes of the next entry; empty.
    spare: Vec<u8>,
    /// The stamp of the last entry.
    last: u128,
    room: u64,
    alloc: Global,
}

impl Model for Transfers {
    ghost use Rattle.io_areas.specs.Transfers.{TransfersValue};

    ghost Value = { TransfersValue };

    ghost use Rattle.io_areas.specs.Transfers.{with_bytes, TransfersStand};

    ghost view = { λ t. record {
      moved = with_bytes t.entries.items t.moves.items;
      room = t.room;
    } };

    ghost invariant = { λ t. TransfersStand t.entries t.moves t.spare t.last t.room };
}

impl Transfers {
    /// No entry, and no room.
    pub(crate) fn new(alloc: Global) -> Transfers
        ensures { result.moved ≡ [] }
    {
        Transfers {
            entries: Vec::new(alloc),
            moves: Vec::new(alloc),
            spare: Vec::new(alloc),
            last: 0,
            room: 0,
            alloc,
        }
    }

    /// Takes room for the next entry, which moves at most `bytes` bytes. `Worn` comes exactly where the last stamp is 2^64 or
    /// more, and names it. After an error nothing has changed.
    pub(crate) fn reserve(&mut self, alloc: Global, bytes: u64) -> Result<(), NoRoom>
        ensures ok { OnOk result (self.new
            ≡ record self.old { room = max self.old.room (bytes + 1) }) }
        ensures failed { OnErr result (self.new ≡ self.old) }
        ensures worn { 2 ^ 64 ≤ greatest_stamp self.old.moved
            → result ≡ Err (NoRoom.Worn (greatest_stamp self.old.moved)) }
        ensures fresh { greatest_stamp self.old.moved < 2 ^ 64
            → (stamp : ℕ) → result ≢ Err (NoRoom.Worn stamp) }
    {
        if self.last >= 1 << 64 {
            return Err(NoRoom::Worn(self.last));
        }
        match self.take_room(alloc, bytes) {
            Ok(()) => Ok(()),
            Err(AllocError) => Err(NoRoom::NoMemory),
        }
    }

    fn take_room(&mut self, alloc: Global, bytes: u64) -> Result<(), AllocError>
        ensures ok { OnOk result (self.new
            ≡ record self.old { room = max self.old.room (bytes + 1) }) }
        ensures failed { OnErr result (self.new ≡ self.old) }
    {
        if self.room <= bytes {
            let room = bytes.checked_add(1).ok_or(AllocError)?;
            let spare = Vec::with_capacity(alloc, bytes as usize)?;
            self.entries.reserve(1)?;
            self.moves.reserve(1)?;
            self.spare = spare;
            self.room = room;
        }
        Ok(())
    }

    /// The stamp of the last entry, 0 where there is none.
    pub(crate) fn last(&self) -> u128
        ensures { result ≡ greatest_stamp self.now.moved }
    {
        self.last
    }

    /// Tells contracts that the entries rise. It does nothing.
    pub(crate) fn show_rising(&self)
        ensures { Rising (entries_of self.now.moved) }
    {
        let _ = &self.entries;
    }

    /// Appends the bare entry of an event that a processor makes under the lock of the area of a number, with the bytes that it
    /// moves. It uses up the room.
    pub(crate) fn append(&mut self, turn: &mut Turn, number: u32, event: Event, bytes: &[u8])
        requires clock { turn.old.clock < 2 ^ 64 }
        requires last { greatest_stamp self.old.moved < 2 ^ 64 }
        requires room { length bytes.now < self.old.room }
        ensures moved { self.new.moved ≡ self.old.moved
            ++ bare_by number (greatest_stamp self.old.moved) turn.old event bytes.now ∷ [] }
        ensures room { self.new.room ≡ 0 }
        ensures turn { turn.new ≡ record turn.old {
          clock = max turn.old.clock (greatest_stamp self.old.moved) + 1;
        } }
    {
        stamp_with(&mut turn.clock, &mut self.last);
        let spare = mem::replace(&mut self.spare, Vec::new(self.alloc));
        self.entries.push_reserved(Entry {
            stamp: turn.clock,
            cpu: turn.cpu,
            cmd: turn.cmd,
            place: Place::Area(number),
            event,
            reply: None,
        });
        self.moves.push_reserved(filled(spare, bytes));
        self.room = 0;
    }

    /// The entries, which rise.
    pub(crate) fn into_entries(self) -> Entries
        ensures entries { result ≡ entries_of self.moved }
        ensures rising { Rising result }
    {
        let Transfers {
            entries,
            moves: _,
            spare: _,
            last: _,
            room: _,
            alloc: _,
        } = self;
        Items::from_vec(entries)
    }
}

/// The bytes in a list that has room for them.
fn filled(spare: Vec<u8>, bytes: &[u8]) -> Bytes
    requires empty { spare.items ≡ [] }
    requires fits { length bytes.now ≤ vec_capacity spare }
    ensures { result ≡ bytes.now }
{
    let mut list = spare;
    match list.extend_from_slice(bytes) {
        Ok(()) => Bytes::from_vec(list),
        Err(_) => unreachable!(),
    }
}
