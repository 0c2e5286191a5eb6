//! Loads stray into a page of a block that is given back.
ghost use Rattle.std.specs.Prelude.{Some, true, false, [], ◌∷◌, ◌≡◌, ◌≢◌};
ghost use Rattle.event_core.specs.declared.reply.Found.{Found as FoundValue};
ghost use Rattle.event_core.specs.declared.reply.Found.TheVariants.{Accepted, Absent};
ghost use Rattle.event_core.specs.Absent.{is_absent};
ghost use Rattle.event_core.specs.Legal.{Whole};
ghost use Rattle.event_core.specs.OwnRows.{found_at};
ghost use Rattle.event_rows.specs.Straying.{stray_guest, stray_script, stray_given, stray_accepted, stray_history};

/// A load that strays into a given page finds it absent, and accepted again after an accept of its unit.
pub fn given_page_is_whole()
    ensures { Whole stray_guest (stray_script ∷ []) (stray_history Absent) }
{}

/// A load that strays into a given page finds nothing else than that it is absent.
pub fn given_page_found_is_not()
    ensures { (given : FoundValue) → given ≢ Absent
        → Whole stray_guest (stray_script ∷ []) (stray_history given) → ⊥ }
{}

/// A page of a block that was given back is absent.
pub fn given_page_is_absent()
    ensures { (is_absent stray_given 1024 ≡ true)
        × (found_at stray_guest stray_given 1024 ≡ Some Absent) }
{}

/// A given page is accepted after a report that accepted its unit, and the block's other unit is absent still.
pub fn accepted_page_is_there()
    ensures { (is_absent (stray_accepted Absent) 1024 ≡ false)
        × (found_at stray_guest (stray_accepted Absent) 1024 ≡ Some Accepted)
        × (is_absent (stray_accepted Absent) 1536 ≡ true) }
{}
