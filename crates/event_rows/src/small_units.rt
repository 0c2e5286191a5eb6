//! An accept over a table of units of 4 KiB.
ghost use Rattle.std.specs.Prelude.{ℕ, Some, [], ◌∷◌, ◌≡◌, ◌≢◌};
ghost use Rattle.guest_base.specs.declared.memory.PageState.TheVariants.{Pending, Accepted};
ghost use Rattle.event_core.specs.Given.{first_by};
ghost use Rattle.event_core.specs.Legal.{Whole};
ghost use Rattle.event_core.specs.Units.{guarded_units};
ghost use Rattle.event_rows.specs.SmallMap.{small_map};
ghost use Rattle.event_rows.specs.SmallUnits.{small_table, small_unit_guest, small_unit_script, small_unit_history, last_and_guard};

/// An accept of the last accepted page claims its unit and the guard behind it, accepts the guard alone by one Small call, and
/// answers that 1 unit was cleared.
pub fn small_unit_accepted_is_whole()
    ensures { Whole small_unit_guest (small_unit_script ∷ []) (small_unit_history 1) }
{}

/// That accept answers no other count of units.
pub fn small_unit_miscounted_is_not()
    ensures { (cleared : ℕ) → cleared ≢ 1
        → Whole small_unit_guest (small_unit_script ∷ []) (small_unit_history cleared) → ⊥ }
{}

/// By the table the unaccepted memory's page 1,535 is accepted at first and page 1,536 is pending.
pub fn table_tells_first_states()
    ensures { (first_by small_map (Some small_table) 1535 ≡ Some Accepted)
        × (first_by small_map (Some small_table) 1536 ≡ Some Pending) }
{}

/// The guarded units of page 1,535 are its unit, of one page, and the guard, of one page too.
pub fn guard_is_one_page()
    ensures { guarded_units small_unit_guest 6287360 4096 ≡ Some last_and_guard }
{}
