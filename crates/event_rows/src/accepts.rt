//! One processor accepts a page, or a unit, of the first unaccepted memory of a small guest.
ghost use Rattle.std.specs.Prelude.{ℕ, ◌≢◌, [], ◌∷◌, false};
ghost use Rattle.guest_base.specs.declared.memory.Level.TheVariants.{Small, Large};
ghost use Rattle.event_core.specs.Legal.{Whole};
ghost use Rattle.event_core.specs.Printed.{Printed};
ghost use Rattle.event_rows.specs.Accepts.{small_guest, accepting, first_units, claimed, accepted, accepted_singly, units_accepted_by, one_large, two_large, page_text};

/// An accept of the first page, of 4 KiB, claims its unit of 2 MiB, accepts it by one Large call and answers that 1 unit was
/// cleared.
pub fn page_accepted_is_whole()
    ensures { Whole small_guest (accepting 4096) (units_accepted_by 1 one_large 1) }
{}

/// After an accept of the first page the count and the pages by their states are printed.
pub fn page_accepted_is_printed()
    ensures { Printed small_guest (units_accepted_by 1 one_large 1) false page_text }
{}

/// An accept of the first page doesn't answer another count of units than 1.
pub fn page_miscounted_is_not()
    ensures { (count : ℕ) → count ≢ 1
        → Whole small_guest (accepting 4096) (units_accepted_by 1 one_large count) → ⊥ }
{}

/// An accept of the first page isn't over with its claim alone: where the last entry is missing the command has no answer.
pub fn page_unreported_is_not()
    ensures { Whole small_guest (accepting 4096) (claimed (first_units 1) ∷ []) → ⊥ }
{}

/// An accept of the first page makes no Small call of 4 KiB where a Large one of 2 MiB fits.
pub fn page_accepted_small_is_not()
    ensures { Whole small_guest (accepting 4096)
        (units_accepted_by 1 (accepted Small 1024 1 ∷ []) 1) → ⊥ }
{}

/// An accept of the first page makes no 512 Small calls in place of the Large one, though they would clear the unit's bit too.
pub fn page_accepted_singly_is_not()
    ensures { Whole small_guest (accepting 4096) (units_accepted_by 1 (accepted_singly 1024 512) 1)
        → ⊥ }
{}

/// An accept of the whole first unit, of 2 MiB, claims the guard behind its end too, accepts both by a Large call each and
/// answers that 2 units were cleared.
pub fn unit_accepted_is_whole()
    ensures { Whole small_guest (accepting 2097152) (units_accepted_by 2 two_large 2) }
{}

/// An accept of the whole first unit doesn't answer another count of units than 2: the guard counts too.
pub fn unit_miscounted_is_not()
    ensures { (count : ℕ) → count ≢ 2
        → Whole small_guest (accepting 2097152) (units_accepted_by 2 two_large count) → ⊥ }
{}

/// An accept of the whole first unit isn't over with its claim alone: where the last entry is missing the command has no answer.
pub fn unit_unreported_is_not()
    ensures { Whole small_guest (accepting 2097152) (claimed (first_units 2) ∷ []) → ⊥ }
{}

/// An accept of the whole first unit makes no Small call for the guard, where a Large one fits.
pub fn unit_accepted_small_is_not()
    ensures { Whole small_guest (accepting 2097152)
        (units_accepted_by 2 (accepted Large 1024 512 ∷ accepted Small 1536 1 ∷ []) 2) → ⊥ }
{}

/// An accept of the whole first unit doesn't go on without the guard (after Linux's `accept_memory`).
pub fn unit_unguarded_is_not()
    ensures { Whole small_guest (accepting 2097152) (units_accepted_by 1 one_large 1) → ⊥ }
{}
