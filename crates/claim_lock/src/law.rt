//! The rule of the table, and the names of its steps.
ghost use Rattle.std.specs.Prelude.{◌≡◌, [], ◌∷◌, ◌++◌};
ghost use Rattle.claim_lock.specs.Rule.{Keeps, Wins, Releases, resting, first_of, others_of, dealt};

use crate::parted::Parted;
use crate::view::{Origin, View};
use atomic_table::{Join, Play, Split, TableRule};

/// The word says who holds the lock, and what each pass knows of the state is true.
pub struct Law;

impl<S: Parted> TableRule<Option<S>, View<S>, Origin<S>> for Law {
    ghost holds = { λ origin. Keeps S.fixed S.part S.moved origin.seats };

    ghost first = { λ origin. resting
        (dealt S.fixed S.part origin.seats origin.state.value 0 origin.seats) };
}

/// The first processor of a seat gets a seat of its own.
pub struct Deal;

impl<S> Split<View<S>> for Deal {
    ghost left = { λ v. resting (others_of v.known) };

    ghost right = { λ v. resting (first_of v.known ∷ []) };
}

/// One seat takes in the processors of another.
pub struct Gather;

impl<S> Join<View<S>> for Gather {
    ghost both = { λ v w. resting (v.known ++ w.known) };

    ghost spent = { resting [] };
}

/// A new seat with no processor.
pub struct Sit;

impl<S> Play<Option<S>, View<S>> for Sit {
    ghost then = { λ step v found w. w ≡ (resting [], []) };
}

/// The lock is won, or was held.
pub struct Win;

impl<S: Parted> Play<Option<S>, View<S>> for Win {
    ghost then = { λ step v found w. Wins S.fixed S.part S.moved v found w };
}

/// The lock is free again.
pub struct Release;

impl<S: Parted> Play<Option<S>, View<S>> for Release {
    ghost then = { λ step v found w. Releases S.part S.moved v w };
}
