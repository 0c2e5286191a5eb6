//! A pass, and what a processor has while it holds the lock.

use crate::view::View;
use atomic_table::Seat;
use std::marker::Model;
use std::snapshot::Snapshot;

pub(crate) type Token<S> = Seat<Option<S>, View<S>>;

/// One processor's right to take the lock. Contracts see of which lock it is, `table`, and what the processor knows, `known`.
#[derive(Drop)]
pub struct Pass<S> {
    pub(crate) number: u32,
    pub(crate) seat: Token<S>,
}

impl<S> Model for Pass<S> {
    ghost use Rattle.std.specs.Prelude.{◌≡◌, [], ◌∷◌};
    ghost use Rattle.claim_lock.specs.Rule.{resting, first_of};
    ghost use Rattle.claim_lock.specs.Seen.{PassSeen, pass_code};

    ghost Value = { PassSeen };

    ghost coded = { pass_code };

    ghost view = { λ p. record { table = p.seat.table_id; known = first_of p.seat.me.0.known } };

    ghost invariant = { λ p. (p.seat.me ≡ (resting (first_of p.seat.me.0.known ∷ []), []))
        × (p.number ≡ (first_of p.seat.me.0.known).number) };
}

/// What ties a held lock to its table. Contracts see of which lock it is, `table`, what the processor knew, `known`, and the
/// state as it was taken, `taken`.
pub struct Grip<S> {
    pub(crate) number: u32,
    pub(crate) taken: Snapshot<S>,
    pub(crate) seat: Token<S>,
}

impl<S> Model for Grip<S> {
    ghost use Rattle.std.specs.Prelude.{◌≡◌, [], ◌∷◌, None};
    ghost use Rattle.claim_lock.specs.Rule.{holding, first_of};
    ghost use Rattle.claim_lock.specs.Seen.{GripSeen, grip_code};

    ghost Value = { GripSeen S };

    ghost coded = { grip_code S.code };

    ghost view = { λ g. record {
      table = g.seat.table_id;
      known = first_of g.seat.me.0.known;
      taken = g.taken.value;
    } };

    ghost invariant = { λ g.
        (g.seat.me ≡ (holding (first_of g.seat.me.0.known) g.taken.value, (0, None) ∷ []))
        × (g.number ≡ (first_of g.seat.me.0.known).number) };
}

/// The state under the lock, held by one processor. It can't be dropped: it has to be given back.
pub struct Held<S> {
    pub(crate) grip: Grip<S>,
    pub(crate) state: S,
}
