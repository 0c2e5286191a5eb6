//! Entries, in room that was taken ahead.
ghost use Rattle.std.specs.Prelude.{◌≡◌, [], ◌∷◌, ◌++◌, ◌+◌, ◌^◌, ◌<◌, ◌≤◌, max, vec_len, vec_capacity};
ghost use Rattle.memory_core.specs.Steps.{bare_entry};

use event_core::{Entry, Event, Place, Turn, stamp_with};

/// Appends the bare entry of an event that a processor makes under the memory's lock.
pub(crate) fn append(entries: &mut Vec<Entry>, last: &mut u128, turn: &mut Turn, event: Event)
    requires room { vec_len entries.old < vec_capacity entries.old }
    requires clock { turn.old.clock < 2 ^ 65 }
    requires last { last.old < 2 ^ 65 }
    ensures entries { entries.new.items
        ≡ entries.old.items ++ bare_entry turn.old last.old event ∷ [] }
    ensures len { vec_len entries.new ≡ vec_len entries.old + 1 }
    ensures capacity { vec_capacity entries.old ≤ vec_capacity entries.new }
    ensures last { last.new ≡ max turn.old.clock last.old + 1 }
    ensures turn { turn.new ≡ record turn.old { clock = max turn.old.clock last.old + 1 } }
{
    stamp_with(&mut turn.clock, last);
    let entry = Entry {
        stamp: turn.clock,
        cpu: turn.cpu,
        cmd: turn.cmd,
        place: Place::Memory,
        event,
        reply: None,
    };
    entries.push_reserved(entry);
}
