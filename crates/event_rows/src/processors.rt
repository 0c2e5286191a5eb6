//! Two processors accept ranges whose guarded units meet.
ghost use Rattle.std.specs.Prelude.{ℕ, Option, true, ◌≢◌, [], ◌∷◌};
ghost use Rattle.guest_base.specs.declared.memory.Units.{Units};
ghost use Rattle.event_core.specs.Legal.{Whole};
ghost use Rattle.event_core.specs.Printed.{Printed};
ghost use Rattle.event_rows.specs.TwoProcessors.{small_pair, first_script, second_script, both_accept, second_early, pair_text};

/// The first processor clears two units, its range's and the guard; then the second finds its unit accepted, and clears none.
pub fn both_accept_is_whole()
    ensures { Whole small_pair (first_script ∷ second_script ∷ []) (both_accept 2 0) }
{}

/// The first processor answers no other count, as where the two replies are swapped.
pub fn first_miscounted_is_not()
    ensures { (first second : ℕ) → first ≢ 2
        → Whole small_pair (first_script ∷ second_script ∷ []) (both_accept first second) → ⊥ }
{}

/// The second processor answers no other count.
pub fn second_miscounted_is_not()
    ensures { (first second : ℕ) → second ≢ 0
        → Whole small_pair (first_script ∷ second_script ∷ []) (both_accept first second) → ⊥ }
{}

/// The second processor doesn't claim its unit before the first has reported, whatever run it finds.
pub fn claim_too_early_is_not()
    ensures { (run : Option Units) (second : ℕ)
        → Whole small_pair (first_script ∷ second_script ∷ []) (second_early run second) → ⊥ }
{}

/// Where the order is asked for, the processor of each entry stands on a line of its own behind the pages.
pub fn both_accept_is_printed()
    ensures { Printed small_pair (both_accept 2 0) true pair_text }
{}
