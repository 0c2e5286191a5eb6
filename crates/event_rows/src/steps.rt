//! What holds of every next step.
ghost use Rattle.std.specs.Prelude.{ℕ, List, [], ◌≡◌, is_none};
ghost use Rattle.event_core.specs.declared.boot.Boot.{Boot as BootValue};
ghost use Rattle.event_core.specs.declared.command.Command.{Command as CommandValue};
ghost use Rattle.event_core.specs.declared.module_call.ModuleCall.{ModuleCall as CallValue};
ghost use Rattle.event_core.specs.Moved.{Moved};
ghost use Rattle.event_core.specs.Next.{next_step};

/// Whether a processor has a next step doesn't depend on what the module answers: turns may ask before any call is made.
pub fn blocked_whatever_is_answered()
    ensures { (boot : BootValue) (scripts : List (List CommandValue)) (cpu : ℕ)
        (own there : List Moved) (calls : List CallValue)
        → is_none (next_step boot scripts cpu own there calls)
        ≡ is_none (next_step boot scripts cpu own there []) }
{}
