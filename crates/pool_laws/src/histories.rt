//! What holds of each legal history, whatever its commands are.
ghost use Rattle.std.specs.Prelude.{List, ◌<◌};
ghost use Rattle.event_core.specs.declared.boot.Boot.{Boot as BootValue};
ghost use Rattle.event_core.specs.declared.command.Command.{Command as CommandValue};
ghost use Rattle.event_core.specs.declared.entry.Entry.{Entry as EntryValue};
ghost use Rattle.event_core.specs.Disjoint.{Disjoint};
ghost use Rattle.event_core.specs.FullOnlyWhereFull.{FullOnlyWhereFull};
ghost use Rattle.event_core.specs.Legal.{Legal};

/// Live mappings have slots of their own: at each place of the history no two have a slot in common, and each lies in one segment.
pub fn mappings_are_disjoint()
    ensures { (boot : BootValue) (scripts : List (List CommandValue)) (entries : List EntryValue) →
        Legal boot scripts entries → Disjoint entries }
{}

/// A mapping is refused as full exactly where its command looked once in each area and found no slots in any, and a look finds none
/// only where nothing fits.
pub fn full_only_where_full()
    ensures { (boot : BootValue) (scripts : List (List CommandValue)) (entries : List EntryValue) →
        0 < boot.areas → Legal boot scripts entries → FullOnlyWhereFull boot scripts entries }
{}
