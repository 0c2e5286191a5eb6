//! A block is shared and taken back, half way first.
ghost use Rattle.std.specs.Prelude.{ℕ, List, ◌≢◌, [], ◌∷◌};
ghost use Rattle.event_core.specs.declared.reply.Found.{Found as FoundValue};
ghost use Rattle.event_core.specs.declared.reply.Found.TheVariants.{Absent};
ghost use Rattle.event_core.specs.Legal.{Whole};
ghost use Rattle.event_rows.specs.Conversions.{pair_guest, pair_script, pair_history};

/// A shared block is refused to reads, and a load that strays into its page finds it shared; where taking it back stops half
/// way, it is half and its page absent; taken back wholly it reads as zero.
pub fn block_converted_is_whole()
    ensures { Whole pair_guest (pair_script ∷ []) (pair_history (0 ∷ []) Absent) }
{}

/// A load that strays into the page of a half block finds nothing else than that it is absent.
pub fn half_block_found_is_not()
    ensures { (read : List ℕ) (half : FoundValue) → half ≢ Absent
        → Whole pair_guest (pair_script ∷ []) (pair_history read half) → ⊥ }
{}

/// A block that was taken back doesn't keep its bytes.
pub fn bytes_kept_is_not()
    ensures { (read : List ℕ) (half : FoundValue) → read ≢ 0 ∷ []
        → Whole pair_guest (pair_script ∷ []) (pair_history read half) → ⊥ }
{}
