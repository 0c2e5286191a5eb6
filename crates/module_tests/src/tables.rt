ghost use Rattle.std.specs.Prelude.{◌≡◌};

use event_core::Runs;
use guest_base::{PageRun, PageState, Pages};
use page_module::PageTable;
use std::test::Fail;

fn run(first: u64, count: u64, state: PageState) -> PageRun
    ensures { result ≡ record {
      pages = record { first = first; count = count };
      state = state;
    } }
{
    let pages = Pages { first, count };
    PageRun { pages, state }
}

#[test]
fn lists_maximal_runs(rt: HostRuntime) -> Result<(), Fail> {
    let mut given = Runs::new(rt.alloc());
    given.try_push(run(0, 8, PageState::Accepted))?;
    given.try_push(run(8, 8, PageState::Accepted))?;
    given.try_push(run(16, 16, PageState::Pending))?;
    let mut table = PageTable::new(rt.alloc(), &given)?;
    table.reserve(rt.alloc(), 4)?;
    let listed = table.runs(rt.alloc())?;
    let expected = [
        run(0, 16, PageState::Accepted),
        run(16, 16, PageState::Pending),
    ];
    assert_eq!(rt; listed.as_slice(), expected.as_slice());
    Ok(())
}
