//! One block of one page, in a guest that has no other.
ghost use Rattle.std.specs.Prelude.{ℕ, List, ◌≢◌, [], ◌∷◌};
ghost use Rattle.event_core.specs.Legal.{Whole};
ghost use Rattle.event_rows.specs.OnePage.{page_guest, page_script, page_history};

/// The block is got, its written bytes are read among zeros, a load strays past it into no RAM, and it is freed and got again
/// with zeros; a name that is had is taken, and one that isn't is unknown.
pub fn block_got_is_whole()
    ensures { Whole page_guest (page_script ∷ []) (page_history (0 ∷ 1 ∷ 2 ∷ 0 ∷ [])) }
{}

/// No other bytes are read of the block than those that were written and zeros.
pub fn block_misread_is_not()
    ensures { (read : List ℕ) → read ≢ 0 ∷ 1 ∷ 2 ∷ 0 ∷ []
        → Whole page_guest (page_script ∷ []) (page_history read) → ⊥ }
{}
