//! Mappings that fill the areas of a pool.
ghost use Rattle.std.specs.Prelude.{Option, Some, ◌≢◌, [], ◌∷◌};
ghost use Rattle.event_core.specs.declared.reply.Reply.{Reply as ReplyValue};
ghost use Rattle.event_core.specs.declared.reply.Reply.TheVariants.{Full};
ghost use Rattle.event_core.specs.FullOnlyWhereFull.{FullOnlyWhereFull};
ghost use Rattle.event_core.specs.Legal.{Whole};
ghost use Rattle.event_rows.specs.TwoAreas.{area_guest, area_script, area_history, early_full, missed_run};

/// A mapping of 65 slots stays within a segment, so an area of one segment holds one; the second is found in the second area, and
/// the third is answered full after a look in each.
pub fn areas_filled_is_whole()
    ensures { Whole area_guest (area_script ∷ []) (area_history (Some Full)) }
{}

/// After a look in each area that found nothing, the mapping is answered nothing else than full, and isn't left unanswered.
pub fn full_unanswered_is_not()
    ensures { (last : Option ReplyValue) → last ≢ Some Full
        → Whole area_guest (area_script ∷ []) (area_history last) → ⊥ }
{}

/// The last mapping is full only where both areas were looked in, and neither has room for it.
pub fn areas_are_full()
    ensures { FullOnlyWhereFull area_guest (area_script ∷ []) (area_history (Some Full)) }
{}

/// A mapping isn't full after a look in one of two areas.
pub fn full_after_one_look_is_not()
    ensures { FullOnlyWhereFull area_guest (area_script ∷ []) early_full → ⊥ }
{}

/// A mapping isn't answered anything else after a look in each area that found nothing.
pub fn full_withheld_is_not()
    ensures { (last : Option ReplyValue) → last ≢ Some Full
        → FullOnlyWhereFull area_guest (area_script ∷ []) (area_history last) → ⊥ }
{}

/// A look doesn't find nothing in an area where the mapping fits.
pub fn run_missed_is_not()
    ensures { FullOnlyWhereFull area_guest (area_script ∷ []) missed_run → ⊥ }
{}
