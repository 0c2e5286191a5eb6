//! Why the entries of processors that stand together are one history, and what keeps them standing.
ghost use Rattle.std.specs.Prelude.{ℕ, List, None, Some, ◌≡◌, ◌≢◌, ◌≤◌, ◌<◌, ◌^◌, All, length, slice_get, slice_set};
ghost use Rattle.guest_base.specs.declared.limits.TheConstants.{PAGE_END};
ghost use Rattle.event_core.specs.declared.boot.Boot.{Boot as BootValue};
ghost use Rattle.event_core.specs.declared.command.Command.{Command};
ghost use Rattle.event_core.specs.declared.entry.Entry.{Entry as EntryValue};
ghost use Rattle.event_core.specs.declared.entry.Place.{Place};
ghost use Rattle.event_core.specs.declared.entry.Place.TheVariants.{Area as AreaPlace};
ghost use Rattle.event_core.specs.declared.module_call.ModuleCall.{ModuleCall};
ghost use Rattle.event_core.specs.declared.reply.Reply.{Reply};
ghost use Rattle.event_core.specs.Cut.{cut};
ghost use Rattle.event_core.specs.Legal.{Legal, place_of};
ghost use Rattle.event_core.specs.Locally.{EachFollows, Rising};
ghost use Rattle.event_core.specs.Moved.{Moved, entries_of};
ghost use Rattle.event_core.specs.Next.{Step, next_step};
ghost use Rattle.event_core.specs.ReadableScript.{ReadableScript};
ghost use Rattle.block_laws.specs.Unconverting.{ConvertsNothing};
ghost use Rattle.guest_history.specs.Agreeing.{Agree, AllReplied, AreMadeBy};
ghost use Rattle.io_areas.specs.Value.{AreaValue};
ghost use Rattle.memory_core.specs.Booted.{IsBooted};
ghost use Rattle.guest_steps.specs.Ground.{FoundAgain, Ground, HasArea, IsGroundOf, there_in};
ghost use Rattle.guest_steps.specs.Running.{AllFinished, AreOf, AtFirst};
ghost use Rattle.guest_steps.specs.declared.processor.Need.TheVariants.{Area as AreaNeed, Own as OwnNeed};
ghost use Rattle.guest_steps.specs.Seen.{Seen, need_of};
ghost use Rattle.guest_steps.specs.Standing.{Stands, Together, kept_by, lists_of, scripts_of};
ghost use Rattle.guest_steps.specs.Steps.{AllRoomAlone, HaveScript, IsBlocked, MakesIn, own_reply, stamp_before, stamp_in};

/// Before the first entry all processors of a boot stand over its memory and areas.
pub fn beginning_stands()
    ensures { (boot : BootValue) (all : List Seen) (base : Ground) → IsBooted boot →
        length (cut boot) ≤ PAGE_END → length all ≡ boot.cpus → IsGroundOf boot base →
        AtFirst all base →
        ((cpu : ℕ) (c : Seen) → slice_get all cpu ≡ Some c → (c.number ≡ cpu)
        × (c.boot ≡ boot) × All ConvertsNothing c.script × ReadableScript c.script) →
        Together boot all base }
{}

/// A processor that needs nothing beside itself has a next event of its own, which ends its command, whatever the memory's entries.
pub fn own_steps_need_no_memory()
    ensures { (c : Seen) (scripts : List (List Command)) (there : List Moved)
        (calls : List ModuleCall) → need_of c ≡ OwnNeed → HaveScript scripts c → (r : Reply)
        × (next_step c.boot scripts c.number c.moved there calls ≡ Some (own_reply r)) }
{}

/// A processor that needs an area has a next event there, whatever the area's entries.
pub fn area_steps_take_place_there()
    ensures { (c : Seen) (scripts : List (List Command)) (there : List Moved)
        (calls : List ModuleCall) (n : ℕ) → need_of c ≡ AreaNeed n → HaveScript scripts c →
        (step : Step) × (next_step c.boot scripts c.number c.moved there calls ≡ Some step)
        × (place_of c.boot step.event ≡ AreaPlace n) }
{}

/// The area that a processor needs is there.
pub fn needed_area_is_there()
    ensures { (c : Seen) (base : Ground) (n : ℕ) → Stands c base → need_of c ≡ AreaNeed n →
        (area : AreaValue) × (area.number ≡ n) × HasArea base area }
{}

/// Where a processor is blocked another one has a claim open, and so a next event: never are all blocked.
pub fn blocked_waits_for_another()
    ensures { (boot : BootValue) (all : List Seen) (base : Ground) (cpu : ℕ) (c : Seen) →
        Together boot all base → slice_get all cpu ≡ Some c → IsBlocked c base.memory.entries →
        (other : ℕ) × (waited : Seen) × (slice_get all other ≡ Some waited) × (other ≢ cpu)
        × (waited.out ≢ None) }
{}

/// A processor goes on standing while others make entries.
pub fn others_leave_standing()
    ensures { (c : Seen) (left found : Ground) → Stands c left →
        FoundAgain c.number left found → Stands c found }
{}

/// A step leaves the entries of each place rising.
pub fn entries_go_on_rising()
    ensures { (old new : Seen) (before after : Ground) (place : Place) →
        MakesIn old new before after → Rising (entries_of (there_in before place)) →
        Rising (entries_of (there_in after place)) }
{}

/// After a step of one processor all stand together, where that one stands.
pub fn step_leaves_all_together()
    ensures { (boot : BootValue) (all : List Seen) (cpu : ℕ) (old new : Seen)
        (before after : Ground) → Together boot all before →
        slice_get all cpu ≡ Some old → MakesIn old new before after → Stands new after →
        Together boot (slice_set all cpu new) after }
{}

/// A step that is blocked or has an error leaves all standing together.
pub fn room_leaves_all_together()
    ensures { (boot : BootValue) (all : List Seen) (before after : Ground) →
        Together boot all before → AllRoomAlone before after → Together boot all after }
{}

/// The lists of processors that stand together agree with those of the memory and of the areas, and each entry follows where it
/// was made.
pub fn standing_lists_agree()
    ensures { (boot : BootValue) (all : List Seen) (base : Ground) →
        Together boot all base → AreMadeBy (lists_of all) (kept_by all base)
        × Agree (kept_by all base) × EachFollows boot (scripts_of all) (kept_by all base) }
{}

/// Where every processor is finished every command has its reply.
pub fn finished_is_replied()
    ensures { (boot : BootValue) (all : List Seen) (base : Ground) →
        Together boot all base → AllFinished all →
        AllReplied (scripts_of all) (kept_by all base) }
{}

/// The entries of processors that stand together are one legal history.
pub fn standing_lists_have_a_history()
    ensures { (boot : BootValue) (all : List Seen) (base : Ground) →
        Together boot all base →
        (entries : List EntryValue) × Legal boot (scripts_of all) entries × AreOf all entries }
{}

/// No stamp is used up: those of processors that stand together lie below 2^64, and so do those of the memory and of the areas.
pub fn stamps_stay_small()
    ensures { (boot : BootValue) (all : List Seen) (base : Ground) (cpu : ℕ) (c : Seen) →
        Together boot all base → slice_get all cpu ≡ Some c →
        (stamp_before c base.memory < 2 ^ 64)
        × ((area : AreaValue) → HasArea base area → stamp_in c area < 2 ^ 64) }
{}
