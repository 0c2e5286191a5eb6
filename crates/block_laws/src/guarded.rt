//! Where no page is pending in such histories: in free blocks and in blocks that a processor has, nor behind them.
ghost use Rattle.std.specs.Prelude.{ℕ, List, None, true, ◌≡◌, ◌≢◌};
ghost use Rattle.std.specs.List.{AllByRecursion};
ghost use Rattle.guest_base.specs.declared.memory.Block.{Block as BlockValue};
ghost use Rattle.event_core.specs.declared.boot.Boot.{Boot as BootValue};
ghost use Rattle.event_core.specs.declared.command.Command.{Command as CommandValue};
ghost use Rattle.event_core.specs.declared.entry.Entry.{Entry as EntryValue};
ghost use Rattle.event_core.specs.declared.entry.Place.TheVariants.{Memory};
ghost use Rattle.event_core.specs.Blocks.{free_page};
ghost use Rattle.event_core.specs.Calls.{calls_of};
ghost use Rattle.event_core.specs.Holdings.{Holding};
ghost use Rattle.event_core.specs.Legal.{Legal, at_place, with_moved};
ghost use Rattle.event_core.specs.Moved.{entries_of, made_by};
ghost use Rattle.event_core.specs.Own.{own_of, script_of};
ghost use Rattle.event_core.specs.OwnRows.{found_at, page_behind};
ghost use Rattle.event_laws.specs.Coming.{BootMade};
ghost use Rattle.block_laws.specs.Apart.{NamesApart};
ghost use Rattle.block_laws.specs.Guarded.{IsClear, IsGuarded, MemoryStands};
ghost use Rattle.block_laws.specs.Unconverting.{ConvertNothing};

/// After the memory's entries of a legal history a pending page lies in a unit with a set bit, in no block that is free or owned and
/// not behind one, and in an open claim's units only in the open run or behind it.
pub fn memory_stands()
    ensures { (boot : BootValue) (scripts : List (List CommandValue)) (entries : List EntryValue) →
        BootMade boot → ConvertNothing scripts → Legal boot scripts entries →
        MemoryStands boot (entries_of (at_place Memory (with_moved boot scripts entries))) }
{}

/// A free page is accepted, and the page behind it isn't pending.
pub fn free_pages_are_clear()
    ensures { (boot : BootValue) (memory : List EntryValue) (page : ℕ) → BootMade boot →
        MemoryStands boot memory → free_page boot memory page ≡ true →
        IsClear boot (calls_of boot memory) page }
{}

/// Each page of each block that a processor has is accepted, and the page behind the block isn't pending.
pub fn held_blocks_are_guarded()
    ensures { (boot : BootValue) (scripts : List (List CommandValue)) (entries : List EntryValue) →
        BootMade boot → ConvertNothing scripts → Legal boot scripts entries → (cpu : ℕ) →
        AllByRecursion (λ (h : Holding). IsGuarded boot (calls_of boot entries) h.block)
        (own_of (script_of scripts cpu) (made_by cpu (with_moved boot scripts entries))).blocks }
{}

/// So a load that strays behind such a block finds something there, and no load waits for ever.
pub fn page_behind_is_found()
    ensures { (boot : BootValue) (memory : List EntryValue) (block : BlockValue) →
        IsGuarded boot (calls_of boot memory) block →
        found_at boot memory (page_behind block) ≢ None }
{}

/// A page has one owner: the blocks of two processors are apart, and so are those that one has under two names.
pub fn held_blocks_are_apart()
    ensures { (boot : BootValue) (scripts : List (List CommandValue)) (entries : List EntryValue) →
        ConvertNothing scripts → Legal boot scripts entries →
        NamesApart scripts (with_moved boot scripts entries) }
{}
