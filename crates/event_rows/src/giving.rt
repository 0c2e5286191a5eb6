//! A block of 4 MiB is given back to the host.
ghost use Rattle.std.specs.Prelude.{Option, None, Some, Bool, true, false, [], ◌∷◌, ◌++◌, ◌≡◌, ◌≢◌};
ghost use Rattle.event_core.specs.declared.event.ConvertEnd.TheVariants as end;
ghost use Rattle.event_core.specs.declared.module_call.PortAnswer.TheVariants as answer;
ghost use Rattle.event_core.specs.declared.reply.Reply.TheVariants as reply;
ghost use Rattle.event_core.specs.AcceptedOnce.{AcceptedOnce};
ghost use Rattle.event_core.specs.Blocks.{is_owned};
ghost use Rattle.event_core.specs.Calls.{SoundCalls};
ghost use Rattle.event_core.specs.ConvertRows.{convert_end};
ghost use Rattle.event_core.specs.Holdings.{PrivateBlock, SharedBlock, HalfBlock};
ghost use Rattle.event_core.specs.Legal.{Whole};
ghost use Rattle.event_core.specs.Own.{nothing};
ghost use Rattle.event_core.specs.Runs.{state_in};
ghost use Rattle.event_rows.specs.Giving.{giving_guest, giving_script, giving_history, given_block, give_call, refused_part, given_part, begun_again, giveback_refusal, has_block, has_mapped, half_of_block, block_of_last_units, block_past_units};
ghost use Rattle.event_rows.specs.Straying.{stray_guest};

/// A block whose giveback the module refuses stays accepted and had; one that is given back is unaccepted for a query, isn't had,
/// waits, and is got again after its two units were accepted.
pub fn given_block_is_whole()
    ensures { Whole giving_guest (giving_script ∷ []) (giving_history true) }
{}

/// A query that follows the giveback of its page finds nothing else than that it is unaccepted: a give sets the bits.
pub fn bits_left_is_not()
    ensures { (unaccepted : Bool) → unaccepted ≢ true
        → Whole giving_guest (giving_script ∷ []) (giving_history unaccepted) → ⊥ }
{}

/// The end of a giveback is that of its one call: done, or refused where the module fails.
pub fn giveback_ends_by_its_call()
    ensures { (convert_end giving_guest (refused_part ++ begun_again ∷ []) given_block
        (give_call given_block answer.Ok ∷ []) ≡ end.Converted)
        × (convert_end giving_guest (refused_part ++ begun_again ∷ []) given_block
        (give_call given_block answer.Failed ∷ []) ≡ end.Refused) }
{}

/// A block's last page is owned where the module refused the block's giveback, and not where the block was given back.
pub fn given_block_is_not_owned()
    ensures { (is_owned refused_part 1023 ≡ true) × (is_owned given_part 1023 ≡ false) }
{}

/// A giveback is refused where the name has no block, the block is shared, half or mapped, it is smaller than 4 MiB, or it lies
/// behind the bitmap's units or in front of them.
pub fn giveback_is_refused()
    ensures { (giveback_refusal giving_guest nothing ≡ Some reply.Unknown)
        × (giveback_refusal giving_guest (has_block given_block SharedBlock) ≡ Some reply.IsShared)
        × (giveback_refusal giving_guest (has_block given_block HalfBlock) ≡ Some reply.Half)
        × (giveback_refusal giving_guest (has_mapped given_block) ≡ Some reply.Mapped)
        × (giveback_refusal giving_guest (has_block half_of_block PrivateBlock) ≡ Some reply.Small)
        × (giveback_refusal giving_guest (has_block block_past_units PrivateBlock)
        ≡ Some reply.NoUnit)
        × (giveback_refusal stray_guest (has_block given_block PrivateBlock) ≡ Some reply.NoUnit) }
{}

/// A giveback of a private block of 4 MiB isn't refused in the bitmap's first units, nor in its last.
pub fn giveback_is_admitted()
    ensures { (giveback_refusal giving_guest (has_block given_block PrivateBlock) ≡ None)
        × (giveback_refusal giving_guest (has_block block_of_last_units PrivateBlock) ≡ None) }
{}

/// The block's pages are accepted again, and yet each call finds its pages as it needs them, since they were given back between.
pub fn given_block_is_accepted_once()
    ensures { AcceptedOnce giving_guest (giving_history true) }
{}

/// A block isn't given back twice: the second call doesn't find its pages accepted.
pub fn given_twice_is_not()
    ensures { SoundCalls (state_in giving_guest.ram)
        (give_call given_block answer.Ok ∷ give_call given_block answer.Ok ∷ []) → ⊥ }
{}
