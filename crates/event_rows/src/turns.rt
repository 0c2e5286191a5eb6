//! The turns in which a history of two processors is made.
ghost use Rattle.std.specs.Prelude.{ℕ, List, [], ◌∷◌};
ghost use Rattle.event_core.specs.Turns.{Turned};
ghost use Rattle.event_rows.specs.TwoProcessors.{small_pair, first_script, second_script, both_accept};

/// In the turns 0, 1, 0, 1 the second processor is blocked at first, and claims after the first has reported.
pub fn both_accept_is_turned()
    ensures { Turned small_pair (first_script ∷ second_script ∷ []) (0 ∷ 1 ∷ 0 ∷ 1 ∷ [])
        (both_accept 2 0) }
{}

/// With no order the turns go round both processors, and make the same history.
pub fn both_accept_is_turned_by_rounds()
    ensures { Turned small_pair (first_script ∷ second_script ∷ []) [] (both_accept 2 0) }
{}

/// Turns don't end before the processors are finished: in no order they make no entry.
pub fn turned_to_nothing_is_not()
    ensures { (order : List ℕ) → Turned small_pair (first_script ∷ second_script ∷ []) order []
        → ⊥ }
{}

/// Turns that begin with the second processor don't make that history: it would find its unit unaccepted.
pub fn second_first_is_not()
    ensures { (order : List ℕ)
        → Turned small_pair (first_script ∷ second_script ∷ []) (1 ∷ order) (both_accept 2 0) → ⊥ }
{}
