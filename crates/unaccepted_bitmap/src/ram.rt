//! The RAM of a map by a table.
ghost use Rattle.std.specs.Prelude.{◌≡◌, ◌^◌, ◌<◌, ◌≤◌, IfOk, OnOk};
ghost use Rattle.guest_base.specs.declared.limits.TheConstants.{PAGE_END};
ghost use Rattle.event_core.specs.Runs.{AreMaximalRuns, state_in, run_end};
ghost use Rattle.guest_map.specs.Ram.{AreBelow};
ghost use Rattle.unaccepted_bitmap.specs.Fits.{state_by, IsCut};

use crate::bitmap::Bitmap;
use event_core::Runs;
use guest_base::limits::PAGE_BYTES;
use guest_base::{PageRun, PageState, Pages};
use guest_map::{GuestMap, push_run};
use std::alloc::{AllocError, Global};

/// A run of one page.
fn one_page(page: u64, state: PageState) -> PageRun
    ensures { result ≡ record { pages = record { first = page; count = 1 }; state = state } }
{
    let pages = Pages {
        first: page,
        count: 1,
    };
    PageRun { pages, state }
}

impl Bitmap {
    ghost use Rattle.std.specs.Prelude.{Some};
    ghost use Rattle.event_core.specs.Map.{MapRules};
    ghost use Rattle.event_core.specs.Table.{marks_page};
    ghost use Rattle.event_core.specs.Given.{first_by};

    /// Whether the bit of a page's unit is set.
    fn marks(&self, page: u64) -> bool
        ensures { result ≡ marks_page self.now page }
    {
        let first = self.base() / PAGE_BYTES;
        first <= page && self.has_bit((page - first) / (self.unit() / PAGE_BYTES))
    }

    /// The state of a page that has this state by the map.
    fn state_by(&self, page: u64, state: PageState) -> PageState
        ensures { result ≡ state_by self.now page state }
    {
        match state {
            PageState::Pending => {
                if self.marks(page) {
                    PageState::Pending
                } else {
                    PageState::Accepted
                }
            }
            PageState::Accepted => PageState::Accepted,
            PageState::Shared => PageState::Shared,
        }
    }

    /// Adds the pages of a run by the map behind maximal runs.
    fn push_cut(&self, runs: &mut Vec<PageRun>, run: PageRun) -> Result<(), AllocError>
        requires end { run_end run ≤ PAGE_END }
        requires below { AreBelow run.pages.first runs.old.items }
        requires maximal { AreMaximalRuns (state_in runs.old.items) runs.old.items }
        ensures { OnOk result (IsCut self.now runs.old.items run runs.new.items) }
    {
        let end = run.pages.first + run.pages.count;
        for page in run.pages.first..end {
            push_run(runs, one_page(page, self.state_by(page, run.state)))?;
        }
        Ok(())
    }

    /// The maximal runs of RAM pages by the state that the map and the bitmap give them, rising: Pending where a page is unaccepted
    /// and the bit of its unit is set, and Accepted elsewhere, as where the page has no unit.
    pub fn ram(&self, alloc: Global, map: &GuestMap) -> Result<Runs, AllocError>
        requires { MapRules map.now.descriptors map.now.hosts }
        ensures { IfOk result (AreMaximalRuns (first_by map.now.descriptors (Some self.now))) }
    {
        let by_map = map.ram(alloc)?;
        let mut runs = Vec::new(alloc);
        for run in by_map.as_slice() {
            self.push_cut(&mut runs, *run)?;
        }
        Ok(Runs::from_vec(runs))
    }
}
