//! A block is given back within the units that another processor has claimed.
ghost use Rattle.std.specs.Prelude.{Option, None, Some, [], ◌∷◌, ◌≡◌, ◌≢◌};
ghost use Rattle.guest_base.specs.declared.memory.Units.{Units};
ghost use Rattle.event_core.specs.Calls.{calls_of};
ghost use Rattle.event_core.specs.Claims.{claim_of};
ghost use Rattle.event_core.specs.Legal.{Whole};
ghost use Rattle.event_core.specs.MemoryRows.{next_run};
ghost use Rattle.event_core.specs.Units.{run_after};
ghost use Rattle.event_rows.specs.GivenMeanwhile.{meanwhile_guest, giver_script, accepter_script, meanwhile_given, meanwhile_history, claim_meanwhile, claimed_units, meanwhile_units};

/// The claim's first run is reported, and the claim ends without the units that were given back meanwhile.
pub fn given_meanwhile_is_whole()
    ensures { Whole meanwhile_guest (giver_script ∷ accepter_script ∷ []) (meanwhile_history None) }
{}

/// The claim doesn't go on with any run, the given units among them.
pub fn given_meanwhile_taken_is_not()
    ensures { (next : Option Units) → next ≢ None
        → Whole meanwhile_guest (giver_script ∷ accepter_script ∷ []) (meanwhile_history next) → ⊥ }
{}

/// The claim's next run is found by the bits that stood before the claim: it has none, though the given units' bits are set.
pub fn claim_goes_by_its_bits()
    ensures { (claim_of meanwhile_guest meanwhile_given 1 ≡ Some claim_meanwhile)
        × (next_run meanwhile_guest claim_meanwhile None ≡ None)
        × (run_after meanwhile_guest (calls_of meanwhile_guest meanwhile_given) claimed_units 2
        ≡ Some meanwhile_units) }
{}
