//! What holds of each legal history whose commands convert nothing, or of every legal history.
ghost use Rattle.std.specs.Prelude.{List, ◌++◌, ◌≡◌, length};
ghost use Rattle.event_core.specs.declared.boot.Boot.{Boot as BootValue};
ghost use Rattle.event_core.specs.declared.command.Command.{Command as CommandValue};
ghost use Rattle.event_core.specs.declared.entry.Entry.{Entry as EntryValue};
ghost use Rattle.event_core.specs.Legal.{Legal, with_moved};
ghost use Rattle.event_core.specs.AcceptedOnce.{AcceptedOnce};
ghost use Rattle.event_core.specs.BytesTold.{BytesTold};
ghost use Rattle.event_core.specs.Calls.{SoundCalls};
ghost use Rattle.event_core.specs.Claims.{ClaimsApart};
ghost use Rattle.event_core.specs.Runs.{state_in};
ghost use Rattle.event_core.specs.Untouched.{Untouched};
ghost use Rattle.event_laws.specs.Coming.{BootMade};
ghost use Rattle.block_laws.specs.Mapped.{EachMappedHeld};
ghost use Rattle.block_laws.specs.Unconverting.{ConvertNothing};

/// Each live mapping of a processor stands for bytes of a block that the processor holds, in every legal history, whatever its commands
/// are: a command that would give up a mapped block is refused.
pub fn mapped_blocks_are_held()
    ensures { (boot : BootValue) (scripts : List (List CommandValue)) (entries : List EntryValue) →
        Legal boot scripts entries → EachMappedHeld scripts (with_moved boot scripts entries) }
{}

/// Each byte that a reply tells is the one that was last written to its place, or zero: in every legal history, whatever its commands
/// are.
pub fn bytes_are_told()
    ensures { (boot : BootValue) (scripts : List (List CommandValue)) (entries : List EntryValue) →
        Legal boot scripts entries → BytesTold boot scripts entries }
{}

/// At each place of a legal history, whatever its commands are, no two processors have open claims with a unit in common.
pub fn claims_are_apart()
    ensures { (boot : BootValue) (scripts : List (List CommandValue)) (entries : List EntryValue) →
        length scripts ≡ boot.cpus → Legal boot scripts entries →
        (before later : List EntryValue) → entries ≡ before ++ later → ClaimsApart boot before }
{}

/// No page is accepted twice, where boot's calls are sound and no command converts a block; and the units of open claims are apart,
/// also of those for waiting blocks.
pub fn block_calls_are_sound()
    ensures { (boot : BootValue) (scripts : List (List CommandValue)) (entries : List EntryValue) →
        ConvertNothing scripts → length scripts ≡ boot.cpus →
        SoundCalls (state_in boot.ram) boot.calls → Legal boot scripts entries →
        AcceptedOnce boot entries }
{}

/// Each page of a block that is got, read, written, filled or loaded, or copied to or from the pool, is accepted, and a load strays
/// into no pending page, where no command converts a block.
pub fn block_pages_are_untouched()
    ensures { (boot : BootValue) (scripts : List (List CommandValue)) (entries : List EntryValue) →
        BootMade boot → ConvertNothing scripts → Legal boot scripts entries →
        Untouched boot scripts entries }
{}
