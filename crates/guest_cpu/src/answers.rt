//! What commands are answered.
ghost use Rattle.std.specs.Prelude.{◌≡◌};
ghost use Rattle.guest_cpu.specs.Stepping.{reply_of_claim, reply_of_report, span_of_report};

use event_core::Reply;
use guest_base::{Block, Units};
use memory_core::Reported;
use page_module::Span;

/// The reply of a claim: one without a run ends its acceptance, which cleared no unit. One for a block ends no command.
pub(crate) fn reply_of_claim(block: Option<Block>, run: Option<Units>) -> Option<Reply>
    ensures { result ≡ reply_of_claim block run }
{
    match (block, run) {
        (None, None) => Some(Reply::Count(0)),
        _ => None,
    }
}

/// The pages of the run with which a claim goes on after a report, where there is one, and else the reply: the acceptance stopped,
/// or this many units were cleared. A claim for a block that closes has no reply, since the processor looks again.
pub(crate) fn after_report(reported: Reported, for_block: bool) -> (Option<Span>, Option<Reply>)
    ensures next { result.0 ≡ span_of_report reported }
    ensures reply { result.1 ≡ reply_of_report for_block reported }
{
    match reported {
        Reported::Next(span) => (Some(span), None),
        Reported::Closed(_) if for_block => (None, None),
        Reported::Closed(cleared) => (None, Some(Reply::Count(cleared))),
        Reported::Stopped => (None, Some(Reply::Module)),
    }
}
