//! The pages that the entries of histories touch as private memory.
ghost use Rattle.std.specs.Prelude.{[], ◌∷◌, ◌≡◌};
ghost use Rattle.event_core.specs.declared.reply.Found.TheVariants.{Absent};
ghost use Rattle.event_core.specs.Disjoint.{Disjoint};
ghost use Rattle.event_core.specs.Untouched.{Untouched};
ghost use Rattle.event_rows.specs.Touched.{touched_along, alone, none};
ghost use Rattle.event_rows.specs.Conversions.{pair_guest, pair_script, pair_history};
ghost use Rattle.event_rows.specs.Bounces.{pool_guest, bounce_script, bounce_history};

/// Bytes that go through the pool touch the block's page where it is got, where a command of the processor names its bytes, and
/// where they are copied: not where the device or the host reads or writes, nor where a copy is skipped or a command is refused.
pub fn bounces_touch_the_block()
    ensures { touched_along pool_guest (bounce_script ∷ []) []
        (bounce_history (1 ∷ 170 ∷ 187 ∷ 204 ∷ 5 ∷ []) (7 ∷ 170 ∷ []))
        ≡ alone 64 ∷ alone 64 ∷ alone 64 ∷ none ∷ alone 64 ∷ alone 64 ∷ alone 64 ∷ none ∷ none
        ∷ alone 64 ∷ alone 64 ∷ alone 64 ∷ alone 64
        ∷ none ∷ none ∷ alone 64 ∷ alone 64 ∷ none ∷ none ∷ none ∷ alone 64 ∷ none ∷ [] }
{}

/// Conversions touch no page themselves, and no page of a block that is shared or half is touched.
pub fn conversions_touch_private_pages()
    ensures { touched_along pair_guest (pair_script ∷ []) [] (pair_history (0 ∷ []) Absent)
        ≡ alone 1 ∷ alone 2 ∷ alone 2 ∷ none ∷ none ∷ none ∷ alone 1 ∷ none ∷ none ∷ none ∷ none
        ∷ alone 1 ∷ none ∷ none ∷ alone 2 ∷ none ∷ [] }
{}

/// In that history no pending page is touched: what the loads stray into is shared, and then absent.
pub fn conversions_are_untouched()
    ensures { Untouched pair_guest (pair_script ∷ []) (pair_history (0 ∷ []) Absent) }
{}

/// The live mappings of the bounces are apart, each in one segment.
pub fn bounces_are_disjoint()
    ensures { Disjoint (bounce_history (1 ∷ 170 ∷ 187 ∷ 204 ∷ 5 ∷ []) (7 ∷ 170 ∷ [])) }
{}
