//! A page is taken from a block that waits to be accepted.
ghost use Rattle.std.specs.Prelude.{[], ◌∷◌};
ghost use Rattle.event_core.specs.Legal.{Whole};
ghost use Rattle.event_rows.specs.Waiting.{waiting_guest, waiting_script, waiting_history, unwaited_history};

/// Where no page is free, an allocation claims the waiting block by its guarded units, reports its two units, and then gets its
/// first page.
pub fn waiting_block_is_whole()
    ensures { Whole waiting_guest (waiting_script ∷ []) waiting_history }
{}

/// The page isn't got before its block is accepted.
pub fn page_got_at_once_is_not()
    ensures { Whole waiting_guest (waiting_script ∷ []) unwaited_history → ⊥ }
{}
