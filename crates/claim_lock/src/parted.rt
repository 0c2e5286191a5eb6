//! What the lock has to know of the value under it.
ghost use Rattle.std.specs.Prelude.{ℕ, List};
ghost use Rattle.event_core.specs.Moved.{Moved};
ghost use Rattle.event_core.specs.Parted.{Fixed, Part};

/// A value that several processors share under one lock, and what it keeps for each of them.
pub trait Parted {
    // What no call changes.
    ghost fixed: { Self → Fixed };

    // What it keeps for the processor of a number.
    ghost part: { Self → ℕ → Part };

    // The recorded entries in order, each with the bytes that it moved into or out of the pool; an entry that moved none has
    // none. `entries_of` of event_core's Moved has the entries alone.
    ghost moved: { Self → List Moved };
}
