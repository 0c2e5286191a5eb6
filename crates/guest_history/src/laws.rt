//! What makes lists of entries one history.
ghost use Rattle.std.specs.Prelude.{ℕ, List, ◌≡◌};
ghost use Rattle.event_core.specs.declared.boot.Boot.{Boot as BootValue};
ghost use Rattle.event_core.specs.declared.command.Command.{Command as CommandValue};
ghost use Rattle.event_core.specs.declared.entry.Entry.{Entry as EntryValue};
ghost use Rattle.event_core.specs.Moved.{Moved, entries_of};
ghost use Rattle.event_core.specs.Legal.{Legal, with_moved};
ghost use Rattle.event_core.specs.Splits.{Lists, SplitsInto};
ghost use Rattle.event_core.specs.Locally.{Rising, EachFollows};
ghost use Rattle.event_core.specs.Turns.{entries_by};
ghost use Rattle.guest_history.specs.Agreeing.{Agree};

/// A history that rises, and stands in lists of which each entry follows where it was made, is legal, and its entries moved the
/// bytes that it says. No entry is looked at beside those of its processor and of its place.
pub fn each_following_is_legal()
    ensures { (boot : BootValue) (scripts : List (List CommandValue)) (history : List Moved)
        (lists : Lists) → Rising (entries_of history) → SplitsInto history lists →
        EachFollows boot scripts lists → Legal boot scripts (entries_of history)
        × (with_moved boot scripts (entries_of history) ≡ history) }
{}

/// Two lists of entries that rise are one where each processor has the same entries in both.
pub fn rising_by_processor_is_one()
    ensures { (a b : List EntryValue) → Rising a → Rising b →
        ((cpu : ℕ) → entries_by cpu a ≡ entries_by cpu b) → a ≡ b }
{}

/// Entries that rise, and of each processor are those of its list, are one history that stands in these lists, where the lists of
/// the locks agree with those of the processors.
pub fn agreeing_lists_have_a_history()
    ensures { (entries : List EntryValue) (lists : Lists) → Rising entries →
        ((cpu : ℕ) → entries_by cpu entries ≡ entries_of (lists.by_cpu cpu)) → Agree lists →
        (history : List Moved) × (entries_of history ≡ entries) × SplitsInto history lists }
{}

/// A legal history rises; and lists that it stands in agree, and each entry in them follows where it was made. So no legal history
/// is left out by what is asked of lists here.
pub fn legal_follows_where_made()
    ensures { (boot : BootValue) (scripts : List (List CommandValue)) (entries : List EntryValue)
        (lists : Lists) → Legal boot scripts entries →
        SplitsInto (with_moved boot scripts entries) lists →
        Rising entries × Agree lists × EachFollows boot scripts lists }
{}
