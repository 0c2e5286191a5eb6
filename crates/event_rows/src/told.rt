//! The bytes that replies tell.
ghost use Rattle.std.specs.Prelude.{ℕ, List, ◌≢◌, [], ◌∷◌};
ghost use Rattle.event_core.specs.BytesTold.{BytesTold};
ghost use Rattle.event_rows.specs.OnePage.{page_guest, page_script, page_history};
ghost use Rattle.event_rows.specs.Bounces.{pool_guest, bounce_script, bounce_history};

/// The reads of the one block tell the bytes that were written, among zeros, and zeros after it was got again; the load that
/// strays tells the block's bytes and zeros.
pub fn block_bytes_are_told()
    ensures { BytesTold page_guest (page_script ∷ []) (page_history (0 ∷ 1 ∷ 2 ∷ 0 ∷ [])) }
{}

/// No read of the block tells other bytes.
pub fn bytes_mistold_is_not()
    ensures { (read : List ℕ) → read ≢ 0 ∷ 1 ∷ 2 ∷ 0 ∷ []
        → BytesTold page_guest (page_script ∷ []) (page_history read) → ⊥ }
{}

/// The reads of a block whose bytes go through the pool tell what was copied out, and the device and the host what was copied in.
pub fn bounced_bytes_are_told()
    ensures { BytesTold pool_guest (bounce_script ∷ [])
        (bounce_history (1 ∷ 170 ∷ 187 ∷ 204 ∷ 5 ∷ []) (7 ∷ 170 ∷ [])) }
{}

/// No read of the device tells other bytes than those of its slots.
pub fn device_mistold_is_not()
    ensures { (read told : List ℕ) → told ≢ 7 ∷ 170 ∷ []
        → BytesTold pool_guest (bounce_script ∷ []) (bounce_history read told) → ⊥ }
{}
