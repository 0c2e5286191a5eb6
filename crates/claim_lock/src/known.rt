//! What proofs keep of the processors that share a lock. The program makes no such value.
ghost use Rattle.std.specs.Prelude.{ℕ, List};
ghost use Rattle.std.specs.Borrow.{ftrue};
ghost use Rattle.event_core.specs.Moved.{Moved};
ghost use Rattle.event_core.specs.Parted.{Fixed, Part};

use std::marker::Model;

/// What a processor knows of the state under the lock since it gave it back: every entry stands with the bytes that it moved.
pub struct Known {
    // The processor's number.
    pub ghost number: { ℕ },
    // The number of passes.
    pub ghost seats: { ℕ },
    // What no call changes.
    pub ghost fixed: { Fixed },
    // The processor's part, as it was left.
    pub ghost part: { Part },
    // The entries that the processor made, in order.
    pub ghost own: { List Moved },
    // The entries that it has seen, which are all that the state had.
    pub ghost seen: { List Moved },
}

impl Model for Known {
    ghost also_owns = { λ _. ftrue };
}
