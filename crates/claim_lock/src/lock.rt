//! The lock.
ghost use Rattle.std.specs.Prelude.{◌≡◌, ◌≢◌, ℕ, ◌+◌, ◌<◌, ◌≤◌, List, [], ◌∷◌, ◌++◌, None, Some, map, All, Any, IfOk, IsTrue, IsFalse, vec_capacity};
ghost use Rattle.std.specs.List.{range_with_len};
ghost use Rattle.claim_lock.specs.Lent.{state_of, grip_of};
ghost use Rattle.claim_lock.specs.Knows.{Finds, MayGive, first_known, left_known, IsOf};
ghost use Rattle.claim_lock.specs.Rule.{resting, holding, first_of, dealt};

use crate::law::{Deal, Gather, Law, Release, Sit, Win};
use crate::parted::Parted;
use crate::pass::{Grip, Held, Pass, Token};
use crate::view::{Origin, View};
use atomic_table::{Shared, Table};
use guest_base::limits::MAX_CPUS;
use std::alloc::{AllocError, Global};
use std::marker::Model;
use std::snapshot::Snapshot;
use std::sync::Wait;
use std::thread;

type Board<S> = Table<Option<S>, View<S>, Origin<S>, Law, Global>;

/// A lock over one value, with a pass for each of its processors. Contracts see which lock it is, `table`, and its number
/// of passes, `seats`.
#[derive(Drop)]
pub struct ClaimLock<S: Parted> {
    table: Board<S>,
}

impl<S: Parted> Model for ClaimLock<S> {
    ghost use Rattle.std.specs.Prelude.{◌≡◌};
    ghost use Rattle.claim_lock.specs.Seen.{LockSeen, lock_code};

    ghost Value = { LockSeen };

    ghost coded = { lock_code };

    ghost view = { λ l. record {
      table = l.table.shared.table_id;
      seats = l.table.shared.key.seats;
    } };

    ghost invariant = { λ l. (l.table.shared.table_id.words ≡ 1)
        × (l.table.shared.table_id.slots ≡ 1) };
}

impl<S: Parted> ClaimLock<S> {
    /// Puts a state with no entries under a lock with `seats` passes, 1 to 64, in the order of their processors' numbers from
    /// 0 on. A pass has seen and made no entry, and counts as having left its part as it was handed in.
    /// `AllocError` comes only where memory runs out, and the state is then dropped.
    pub fn new(
        alloc: Global,
        state: S,
        seats: u32,
    ) -> Result<(ClaimLock<S>, Vec<Pass<S>>), AllocError>
    where
        S: Drop,
        requires seats { (1 ≤ seats) × (seats ≤ MAX_CPUS) }
        requires entries { S.moved state ≡ [] }
        ensures lock { IfOk result (λ r. r.0.seats ≡ seats) }
        ensures passes { IfOk result (λ r. r.1.items ≡ map
            (λ cpu. record {
              table = r.0.table;
              known = first_known S.fixed S.part seats state cpu;
            })
            (range_with_len 0 seats)) }
    {
        let mut passes = Vec::with_capacity(alloc, seats as usize)?;
        let origin = Origin {
            seats,
            state: Snapshot::of(&state),
        };
        let (table, seat) = opened(alloc, state, &origin)?;
        deal(&table.shared, seat, &origin, &mut passes);
        Ok((ClaimLock { table }, passes))
    }

    /// Takes the lock, and waits while another processor holds it. The pass is one of this lock.
    /// The state has `fixed` as it was handed to `new`, this processor's part as the pass left it, the entries that the pass
    /// had seen first, and of this processor's entries just those that it made through the pass, in order. Every entry names
    /// a processor below the number of passes.
    pub fn take<R: Wait>(&self, rt: &R, pass: Pass<S>) -> Held<S>
        requires { pass.table ≡ self.now.table }
        ensures grip { grip_of result
            ≡ record { table = pass.table; known = pass.known; taken = state_of result } }
        ensures state { Finds S.fixed S.part S.moved pass.known (state_of result) }
    {
        let Pass { number, mut seat } = pass;
        for _ in rt.forever() {
            if self.win(&mut seat, number) {
                return self.receive(number, seat);
            }
            thread::yield_now();
        }
        unreachable!()
    }

    // Tries once to change the word from 0 to the processor's, and says whether it did.
    fn win(&self, seat: &mut Token<S>, number: u32) -> bool
        requires table { seat.old.table_id ≡ self.now.table }
        requires rests { seat.old.me ≡ (resting (first_of seat.old.me.0.known ∷ []), []) }
        requires number { number ≡ (first_of seat.old.me.0.known).number }
        ensures table { seat.new.table_id ≡ seat.old.table_id }
        ensures won { IsTrue result → ((state : S)
            × (seat.new.me ≡ (holding (first_of seat.old.me.0.known) state, (0, Some state) ∷ []))
            × Finds S.fixed S.part S.moved (first_of seat.old.me.0.known) state) }
        ensures lost { IsFalse result → seat.new.me ≡ seat.old.me }
    {
        self.table
            .shared
            .compare_exchange::<Win>(seat, 0, 0, u64::from(number) + 1)
            == 0
    }

    // Takes the state out of the slot.
    fn receive(&self, number: u32, mut seat: Token<S>) -> Held<S>
        requires table { seat.table_id ≡ self.now.table }
        requires number { number ≡ (first_of seat.me.0.known).number }
        requires holds { (state : S)
            × (seat.me ≡ (holding (first_of seat.me.0.known) state, (0, Some state) ∷ []))
            × Finds S.fixed S.part S.moved (first_of seat.me.0.known) state }
        ensures grip { result.grip ≡ record {
          table = seat.table_id;
          known = first_of seat.me.0.known;
          taken = result.state;
        } }
        ensures state { Finds S.fixed S.part S.moved (first_of seat.me.0.known) result.state }
    {
        let Some(state) = self.table.shared.exchange(&mut seat, 0, None) else {
            unreachable!()
        };
        let taken = Snapshot::of(&state);
        Held {
            grip: Grip {
                number,
                taken,
                seat,
            },
            state,
        }
    }

    /// Gives the lock back, which is this one. Since `take` neither `fixed` nor another processor's part has changed, and
    /// entries were added at the end alone, each of them this processor's.
    pub fn give(&self, held: Held<S>) -> Pass<S>
        requires lock { (grip_of held).table ≡ self.now.table }
        requires state { MayGive S.fixed S.part S.moved
            (grip_of held).known.number (grip_of held).taken (state_of held) }
        ensures lock { result.table ≡ (grip_of held).table }
        ensures known { result.known
            ≡ left_known S.part S.moved (grip_of held).known (grip_of held).taken (state_of held) }
    {
        let Held { grip, state } = held;
        let Grip {
            number,
            taken: _,
            mut seat,
        } = grip;
        let left = self.table.shared.exchange(&mut seat, 0, Some(state));
        let None = left else { unreachable!() };
        self.table
            .shared
            .compare_exchange::<Release>(&mut seat, 0, u64::from(number) + 1, 0);
        Pass { number, seat }
    }

    /// Takes the state out again, once all passes of this lock are handed in, in any order. Of it all that `take` says holds
    /// for every pass.
    pub fn close(self, passes: Vec<Pass<S>>) -> S
        requires lock { All (λ p. p.table ≡ self.table) passes.items }
        requires all { (cpu : ℕ) → cpu < self.seats
            → Any (λ p. p.known.number ≡ cpu) passes.items }
        ensures { All (λ p. Finds S.fixed S.part S.moved p.known result) passes.items }
    {
        let ClaimLock { table } = self;
        let seat = gathered(&table.shared, passes);
        let mut closed = table.close_with(seat);
        let Some(state) = closed.take(0) else {
            unreachable!()
        };
        closed.free();
        state
    }
}

// The table with the state in its slot, and a seat with all processors.
fn opened<S: Parted + Drop>(
    alloc: Global,
    state: S,
    origin: &Origin<S>,
) -> Result<(Board<S>, Token<S>), AllocError>
    requires state { origin.now.state.value ≡ state }
    requires entries { S.moved state ≡ [] }
    ensures sizes { IfOk result (λ r. (r.0.shared.table_id.words ≡ 1)
        × (r.0.shared.table_id.slots ≡ 1) × (r.0.shared.key ≡ origin.now)) }
    ensures seat { IfOk result (λ r. (r.1.table_id ≡ r.0.shared.table_id)
        × (r.1.me ≡ (
          resting (dealt S.fixed S.part
              origin.now.seats origin.now.state.value 0 origin.now.seats),
          [],
        ))) }
{
    let mut slots = Vec::with_capacity(alloc, 1)?;
    slots.push_reserved(Some(state));
    match Table::new(alloc, &[0], slots, origin) {
        Ok(made) => Ok(made),
        Err(_) => Err(AllocError),
    }
}

// A pass for each processor of the seat.
fn deal<S: Parted>(
    shared: &Shared<Option<S>, View<S>, Origin<S>, Law>,
    seat: Token<S>,
    origin: &Origin<S>,
    passes: &mut Vec<Pass<S>>,
)
    requires shared { (shared.now.table_id.words ≡ 1)
        × (shared.now.key.seats ≡ origin.now.seats) }
    requires seat { (seat.table_id ≡ shared.now.table_id)
        × (seat.me ≡ (
          resting (dealt S.fixed S.part
              origin.now.seats origin.now.state.value 0 origin.now.seats),
          [],
        )) }
    requires room { (passes.old.items ≡ []) × (origin.now.seats ≤ vec_capacity passes.old) }
    ensures { passes.new.items ≡ map
        (λ cpu. record {
          table = shared.now.table_id;
          known = first_known S.fixed S.part origin.now.seats origin.now.state.value cpu;
        })
        (range_with_len 0 origin.now.seats) }
{
    let mut seat = seat;
    for number in 0..origin.seats {
        passes.push_reserved(Pass {
            number,
            seat: shared.split_seat::<Deal>(&mut seat),
        });
    }
}

// One seat with the processors of all passes.
fn gathered<S: Parted>(
    shared: &Shared<Option<S>, View<S>, Origin<S>, Law>,
    passes: Vec<Pass<S>>,
) -> Token<S>
    requires words { shared.now.table_id.words ≡ 1 }
    requires lock { All (λ p. p.table ≡ shared.now.table_id) passes.items }
    ensures lock { result.table_id ≡ shared.now.table_id }
    ensures me { result.me ≡ (resting (map (λ p. p.known) passes.items), []) }
{
    let (_, mut seat) = shared.load_new_seat::<Sit>(0);
    for pass in passes {
        let Pass {
            number: _,
            seat: other,
        } = pass;
        shared.join_seat::<Gather>(&mut seat, other);
    }
    seat
}
