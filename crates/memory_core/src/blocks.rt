//! The steps of the memory for blocks.
ghost use Rattle.std.specs.Prelude.{◌≡◌, ◌≢◌, ℕ, ◌+◌, ◌<◌, ◌≤◌, ◌^◌, None, Some, Option, IfSome, IfNone, true, false};
ghost use Rattle.std.specs.Option.{ForSome};
ghost use Rattle.guest_base.specs.Blocks.{pick};
ghost use Rattle.guest_base.specs.declared.limits.TheConstants.{MAX_ORDER};
ghost use Rattle.guest_base.specs.declared.memory.Block.{Block as BlockValue};
ghost use Rattle.guest_base.specs.declared.memory.PageState.TheVariants.{Pending};
ghost use Rattle.event_core.specs.declared.event.Event.TheVariants.{Freed, Got, Touched};
ghost use Rattle.event_core.specs.Blocks.{free_page, lowest_waiting};
ghost use Rattle.event_core.specs.Calls.{calls_of};
ghost use Rattle.event_core.specs.MemoryRows.{is_pending, page_state};
ghost use Rattle.event_core.specs.OwnRows.{found_at, page_behind};
ghost use Rattle.memory_core.specs.Answers.{LeavesNoRoom, OthersKeep, UsesOne};
ghost use Rattle.memory_core.specs.Looks.{found_in, LookedBy, Looks};
ghost use Rattle.memory_core.specs.Owners.{is_owner};
ghost use Rattle.memory_core.specs.Steps.{unaccepted_count, Appends, MayBegin};
ghost use Rattle.memory_core.specs.Waiting.{waiting_units};

use crate::claims::{in_flight, is_out};
use crate::entries::append;
use crate::memory::{Begin, Look, Memory};
use crate::units::{block_units_of, count_unaccepted};
use event_core::{Event, Found, Turn};
use guest_base::{Block, Page, PageState, Units};

impl Memory {
    /// The lowest waiting block. None exactly where none waits.
    pub fn waiting_block(&self) -> Option<Block>
        ensures { result ≡ lowest_waiting self.now.boot self.now.entries }
    {
        self.blocks.peek_unaccepted()
    }

    /// The units that the acceptance of the lowest waiting block claims, the guard among them; they end below 2^64. None exactly
    /// where no block waits or there are none.
    pub fn waiting_units(&self) -> Option<Units>
        ensures units { result ≡ waiting_units self.now.boot self.now.entries }
        ensures end { ForSome result (λ u. u.first + u.count < 2 ^ 64) }
    {
        block_units_of(&self.bits, self.blocks.peek_unaccepted())
    }

    /// The number of unaccepted units among the guarded ones of the lowest waiting block: for this many there has to be room before
    /// a look for a block.
    pub fn unaccepted_waiting(&self) -> u64
        ensures { result ≡ unaccepted_count self.now.boot self.now.entries
            (waiting_units self.now.boot self.now.entries) }
    {
        count_unaccepted(&self.bits, self.waiting_units())
    }

    /// Looks for a block of 2^`order` pages, `order` being at most 10, for the turn's processor, which has no open claim. There has
    /// to be room for as many units as are unaccepted among the guarded ones of the lowest waiting block.
    ///
    /// `Got` comes exactly where a free block suffices: it is the lowest part of the lowest free block of the least order that does
    /// (own rule, after the page allocator), also where a lower block waits. Where none suffices the lowest waiting block is
    /// claimed, as by `begin_accept`: `Blocked` comes exactly where an open claim meets its guarded units, `Cleared` exactly where
    /// none is met and no guarded unit is unaccepted, and else `Claimed`. Where none waits either, `InFlight` names the least
    /// processor that accepts a block, and `NoBlock` comes exactly where there is none.
    ///
    /// After `Blocked` and `InFlight` nothing has changed. After the other answers no room is left.
    pub fn alloc_look(&mut self, turn: &mut Turn, order: u32) -> Look
        requires order { order ≤ MAX_ORDER }
        requires step { MayBegin self.old turn.old (unaccepted_count
            self.old.boot self.old.entries (waiting_units self.old.boot self.old.entries)) }
        ensures looked { LookedBy self.old self.new turn.old order result }
        ensures looks { Looks self.old self.new turn.old turn.new order }
        ensures others { OthersKeep self.old self.new turn.old.cpu.0 }
    {
        if let Some(block) = self.get_free(turn, order) {
            return Look::Got(block);
        }
        match self.waiting_block() {
            Some(block) => self.claim_waiting(turn, block),
            None => self.find_none(turn),
        }
    }

    /// Gets a free block, where one suffices; no room is left then, and else nothing has changed.
    fn get_free(&mut self, turn: &mut Turn, order: u32) -> Option<Block>
        requires order { order ≤ MAX_ORDER }
        requires step { MayBegin self.old turn.old 0 }
        ensures picked { result ≡ pick (free_page self.old.boot self.old.entries) order }
        ensures fresh { IfSome result (λ block. (cpu : ℕ)
            → is_owner self.old.entries cpu block ≡ false) }
        ensures uses { IfSome result (λ block. LeavesNoRoom self.old self.new) }
        ensures appends { IfSome result (λ block.
            Appends self.old self.new turn.old turn.new (Got block)) }
        ensures none { IfNone result ((self.new ≡ self.old) × (turn.new ≡ turn.old)) }
        ensures others { OthersKeep self.old self.new turn.old.cpu.0 }
    {
        let block = self.blocks.take(order)?;
        append(
            &mut self.entries,
            &mut self.last,
            turn,
            Event::Got { block },
        );
        self.room = 0;
        Some(block)
    }

    /// Claims the lowest waiting block, as a look does for any order where no free block suffices.
    fn claim_waiting(&mut self, turn: &mut Turn, block: Block) -> Look
        requires lowest { lowest_waiting self.old.boot self.old.entries ≡ Some block }
        requires step { MayBegin self.old turn.old (unaccepted_count
            self.old.boot self.old.entries (waiting_units self.old.boot self.old.entries)) }
        ensures looked { (order : ℕ) → pick (free_page self.old.boot self.old.entries) order ≡ None
            → LookedBy self.old self.new turn.old order result }
        ensures looks { (order : ℕ) → pick (free_page self.old.boot self.old.entries) order ≡ None
            → Looks self.old self.new turn.old turn.new order }
        ensures others { OthersKeep self.old self.new turn.old.cpu.0 }
    {
        let units = self.waiting_units();
        match self.open_claim(turn, Some(block), units) {
            Begin::Clear => Look::Cleared,
            Begin::Claimed(span) => Look::Claimed(span),
            Begin::Blocked(met) => Look::Blocked(met),
        }
    }

    /// Finds no block, where none waits, unless one is being accepted.
    fn find_none(&mut self, turn: &mut Turn) -> Look
        requires none { lowest_waiting self.old.boot self.old.entries ≡ None }
        requires step { MayBegin self.old turn.old 0 }
        ensures looked { (order : ℕ) → pick (free_page self.old.boot self.old.entries) order ≡ None
            → LookedBy self.old self.new turn.old order result }
        ensures looks { (order : ℕ) → pick (free_page self.old.boot self.old.entries) order ≡ None
            → Looks self.old self.new turn.old turn.new order }
        ensures others { OthersKeep self.old self.new turn.old.cpu.0 }
    {
        if let Some(cpu) = in_flight(&self.accepting) {
            return Look::InFlight(cpu);
        }
        append(&mut self.entries, &mut self.last, turn, Event::NoBlock);
        self.room = 0;
        Look::NoBlock
    }

    /// Frees a block that the turn's processor owns. No room is left.
    pub fn free(&mut self, turn: &mut Turn, block: Block)
        requires owner { is_owner self.old.entries turn.old.cpu.0 block ≡ true }
        requires step { MayBegin self.old turn.old 0 }
        ensures uses { LeavesNoRoom self.old self.new }
        ensures appends { Appends self.old self.new turn.old turn.new (Freed block) }
        ensures others { OthersKeep self.old self.new turn.old.cpu.0 }
    {
        append(
            &mut self.entries,
            &mut self.last,
            turn,
            Event::Freed { block },
        );
        self.blocks.free(block);
        self.room = 0;
    }

    /// What a load finds that strays into the page behind a block of the turn's processor: its state, that it is absent, or that it
    /// isn't RAM. It is never pending. A page that is out for an open claim counts as it is. It uses the room of one entry.
    pub fn load_touch(&mut self, turn: &mut Turn, page: Page) -> Found
        requires behind { (block : BlockValue)
            × (is_owner self.old.entries turn.old.cpu.0 block ≡ true)
            × (page.0 ≡ page_behind block) }
        requires step { MayBegin self.old turn.old 0 }
        ensures found { found_at self.old.boot self.old.entries page.0 ≡ Some result }
        ensures uses { UsesOne self.old self.new }
        ensures appends { Appends self.old self.new turn.old turn.new (Touched page result) }
        ensures others { OthersKeep self.old self.new turn.old.cpu.0 }
    {
        let found = self.find(page);
        append(
            &mut self.entries,
            &mut self.last,
            turn,
            Event::Touched { page, found },
        );
        self.room -= 1;
        found
    }

    /// What a load finds in a page that isn't pending. One that is out for an open claim is accepted then.
    fn find(&self, page: Page) -> Found
        requires { is_pending (page_state self.now.boot
            (calls_of self.now.boot self.now.entries) page.0) ≡ false }
        ensures { found_at self.now.boot self.now.entries page.0 ≡ Some result }
    {
        found_of(self.table.state(page), is_out(&self.accepting, page))
    }
}

/// What a load finds in a page that has this state in the table, or is in none of its runs and may be out for an open claim.
fn found_of(state: Option<PageState>, is_out: bool) -> Found
    requires { state ≢ Some Pending }
    ensures { found_in state is_out ≡ Some result }
{
    match state {
        Some(PageState::Pending) => unreachable!(),
        Some(PageState::Accepted) => Found::Accepted,
        Some(PageState::Shared) => Found::Shared,
        None => found_without(is_out),
    }
}

/// What a load finds in a page that is in no run of the table.
fn found_without(is_out: bool) -> Found
    ensures { found_in None is_out ≡ Some result }
{
    if is_out {
        Found::Accepted
    } else {
        Found::Outside
    }
}
