//! The open claims of processors.
ghost use Rattle.std.specs.Prelude.{◌≡◌, ◌+◌, ◌-◌, ◌<◌, ◌≤◌, length};
ghost use Rattle.std.specs.List.{list_any};
ghost use Rattle.std.specs.Option.{option_map};
ghost use Rattle.guest_base.specs.declared.memory.CpuNo.{CpuNo as CpuNoValue};
ghost use Rattle.memory_core.specs.Bitmaps.{next_of};
ghost use Rattle.memory_core.specs.OpenClaims.{first_flight, has_out, is_flight};

use accept_sizes::RunEnd;
use accepting_ranges::{Accepting, Claim};
use guest_base::{Block, CpuNo, Page, Units};
use page_module::Ticket;

/// A processor's open claim, whose run is out.
#[derive(Debug, Drop)]
pub(crate) struct OpenClaim {
    /// The waiting block that the claim is for.
    pub(crate) block: Option<Block>,
    pub(crate) units: Units,
    /// The open run.
    pub(crate) run: Units,
    /// The runs of unaccepted units behind the first one, as they were at the claim.
    pub(crate) later: Vec<Units>,
    /// The number of these that were opened.
    pub(crate) opened: u64,
    /// The number of units that the claim has cleared.
    pub(crate) cleared: u64,
    /// The taking of the run's pages.
    pub(crate) ticket: Ticket,
    /// The number of units behind the run for which there is room.
    pub(crate) room: u64,
}

impl Claim for OpenClaim {
    ghost units = { λ claim. claim.units };

    fn units(&self) -> Units {
        self.units
    }
}

/// The claim with its next run, which is out by a ticket, after this many units were cleared.
pub(crate) fn with_next(claim: OpenClaim, run: Units, cleared: u64, ticket: Ticket) -> OpenClaim
    requires opened { claim.opened < length claim.later.items }
    requires room { run.count ≤ claim.room }
    ensures { result ≡ record claim {
      run = run;
      opened = claim.opened + 1;
      cleared = cleared;
      ticket = ticket;
      room = claim.room - run.count;
    } }
{
    OpenClaim {
        block: claim.block,
        units: claim.units,
        run,
        later: claim.later,
        opened: claim.opened + 1,
        cleared,
        ticket,
        room: claim.room - run.count,
    }
}

/// The run behind the open one, where the acceptance of that one didn't stop.
pub(crate) fn next_run_of(claim: &OpenClaim, end: RunEnd) -> Option<Units>
    ensures { result ≡ next_of claim.now.later.items claim.now.opened end }
{
    match end {
        RunEnd::Whole => claim.later.as_slice().get(claim.opened as usize).copied(),
        RunEnd::Stopped(_) => None,
    }
}

/// The least processor with a claim for a block.
pub(crate) fn in_flight(accepting: &Accepting<OpenClaim>) -> Option<CpuNo>
    ensures { option_map (λ (cpu : CpuNoValue). cpu.0) result ≡ first_flight accepting.now }
{
    let mut cpu = 0;
    for claim in accepting.as_slice() {
        if is_flight(claim) {
            return Some(CpuNo(cpu));
        }
        cpu += 1;
    }
    None
}

fn is_flight(claim: &Option<OpenClaim>) -> bool
    ensures { result ≡ is_flight claim.now }
{
    match claim {
        Some(claim) => claim.block.is_some(),
        None => false,
    }
}

/// Whether the page is out for an open claim.
pub(crate) fn is_out(accepting: &Accepting<OpenClaim>, page: Page) -> bool
    ensures { result ≡ list_any (has_out page.0) accepting.now }
{
    accepting
        .as_slice()
        .iter()
        .any(|claim| has_out(claim, page))
}

fn has_out(claim: &Option<OpenClaim>, page: Page) -> bool
    ensures { result ≡ has_out page.0 claim.now }
{
    match claim {
        Some(claim) => claim.ticket.pages.holds(page),
        None => false,
    }
}
