//! A block's bytes go through the pool.
ghost use Rattle.std.specs.Prelude.{ℕ, List, ◌≢◌, [], ◌∷◌};
ghost use Rattle.event_core.specs.Legal.{Whole};
ghost use Rattle.event_rows.specs.Bounces.{pool_guest, bounce_script, bounce_history};

/// An unmapping copies the mapped range back unless it is skipped, the bytes that the device didn't write among it; a copy in
/// or out by hand copies the bytes that it names alone; each next mapping is found behind the last one.
pub fn block_bounced_is_whole()
    ensures { Whole pool_guest (bounce_script ∷ [])
        (bounce_history (1 ∷ 170 ∷ 187 ∷ 204 ∷ 5 ∷ []) (7 ∷ 170 ∷ [])) }
{}

/// The block has no other bytes after the device wrote three of five mapped ones.
pub fn block_miscopied_is_not()
    ensures { (read told : List ℕ) → read ≢ 1 ∷ 170 ∷ 187 ∷ 204 ∷ 5 ∷ []
        → Whole pool_guest (bounce_script ∷ []) (bounce_history read told) → ⊥ }
{}

/// The device reads no other bytes after one of two mapped ones was copied in.
pub fn device_misread_is_not()
    ensures { (read told : List ℕ) → told ≢ 7 ∷ 170 ∷ []
        → Whole pool_guest (bounce_script ∷ []) (bounce_history read told) → ⊥ }
{}
