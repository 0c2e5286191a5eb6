//! What a conversion of a span's pages is to the block whose pages they are.
ghost use Rattle.std.specs.Prelude.{List};
ghost use Rattle.guest_base.specs.declared.memory.Block.{Block as BlockValue};
ghost use Rattle.guest_base.specs.declared.memory.PageState.{PageState as StateValue};
ghost use Rattle.event_core.specs.declared.boot.Boot.{Boot as BootValue};
ghost use Rattle.event_core.specs.declared.event.ConvertEnd.{ConvertEnd as EndValue};
ghost use Rattle.event_core.specs.declared.module_call.ModuleCall.{ModuleCall as CallValue};
ghost use Rattle.page_module.specs.Spans.{Taken};
ghost use Rattle.page_convert.specs.Conversions.{ConvertsSpan};
ghost use Rattle.page_convert.specs.Blocks.{ConvertsBlock, HasBlock};

/// Calls that convert a span with the pages of a block convert the block: they are those of its conversion, the end is the one
/// that they bring, and the span has the block's pages in the states after them.
pub fn block_is_converted()
    ensures { (boot : BootValue) (before calls : List CallValue) (block : BlockValue)
        (to : StateValue) (old new : Taken) (end : EndValue) → HasBlock boot before block old →
        ConvertsSpan boot.hosts to old new calls end →
        ConvertsBlock boot before block to new calls end }
{}
