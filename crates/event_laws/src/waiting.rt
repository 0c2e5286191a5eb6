//! Which blocks wait when boot is over.
ghost use Rattle.std.specs.Prelude.{ℕ, List, ◌∷◌, ◌++◌, ◌≡◌};
ghost use Rattle.event_core.specs.declared.boot.Boot.{Boot as BootValue};
ghost use Rattle.guest_base.specs.declared.memory.Block.{Block as BlockValue};
ghost use Rattle.event_core.specs.declared.module_call.ModuleCall.{ModuleCall as CallValue};
ghost use Rattle.event_core.specs.Blocks.{waits_at_boot};
ghost use Rattle.event_core.specs.Cut.{cut};
ghost use Rattle.event_laws.specs.Coming.{BootMade, ComesTo, waits_after};

/// A block of order 10, of 4 MiB, waits at boot exactly where one of its guarded units has a set bit after the calls that boot has
/// made when it comes to the block: for whatever pieces and pool, and with each split of boot's stages and of its calls at the block.
/// So the calls that begin below the block's end tell what the calls before it in boot's order tell.
pub fn block_waits_as_boot_comes()
    ensures { (boot : BootValue) (block : BlockValue) (done : List CallValue) →
        ComesTo boot block done → block.order ≡ 10 →
        waits_at_boot boot block ≡ waits_after boot done block }
{}

/// Boot comes to each block of the cut, with some of its calls done: so each block of order 10 waits as those calls tell.
pub fn each_block_is_come_to()
    ensures { (boot : BootValue) (lower higher : List BlockValue) (block : BlockValue) →
        BootMade boot → cut boot ≡ lower ++ block ∷ higher →
        (done : List CallValue) × ComesTo boot block done }
{}
