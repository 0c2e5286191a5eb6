//! The state, lent to the processor that holds the lock.
ghost use Rattle.std.specs.Prelude.{◌≡◌};
ghost use Rattle.std.specs.Borrow.{Lends, sem};
ghost use Rattle.claim_lock.specs.Lent.{held_with, state_of};
ghost use Rattle.claim_lock.specs.contracts.pass.Held.{the_row};

use crate::pass::Held;

impl<S> Held<S> {
    /// The state. What is written through the reference is the state from then on.
    pub fn state(&mut self) -> &mut S
        ensures* writes_back { sem 𝓛
            (Lends (the_row S.row) S.row self.entry result (held_with self.old)) }
        ensures value { result.now ≡ state_of self.old }
    {
        &mut self.state
    }
}
