use guest_base::{Block, PageRun, PageState, Pages};
use guest_boot::cut::{cut_blocks, ranges};
use std::test::Fail;

#[test]
fn one_page(rt: HostRuntime) -> Result<(), Fail> {
    let alloc = rt.alloc();
    let pages = Pages { first: 7, count: 1 };
    let state = PageState::Pending;
    let ranges = ranges(alloc, &[PageRun { pages, state }])?;
    let blocks = cut_blocks(alloc, ranges.as_slice(), None)?;
    assert_eq!(rt;
        blocks.as_slice(),
        [Block { first: 7, order: 0 }].as_slice()
    );
    Ok(())
}

#[test]
fn joined_ranges(rt: HostRuntime) -> Result<(), Fail> {
    let alloc = rt.alloc();
    let low = PageRun {
        pages: Pages {
            first: 0x100,
            count: 0x180,
        },
        state: PageState::Accepted,
    };
    let high = PageRun {
        pages: Pages {
            first: 0x280,
            count: 0x7d80,
        },
        state: PageState::Pending,
    };
    let ranges = ranges(alloc, &[low, high])?;
    let blocks = cut_blocks(alloc, ranges.as_slice(), None)?;
    assert_eq!(rt; blocks.len(), 33);
    for (block, (first, order)) in blocks
        .iter()
        .zip([(0x100, 8), (0x200, 9), (0x400, 10), (0x800, 10)])
    {
        assert_eq!(rt; *block, Block { first, order });
    }
    Ok(())
}

#[test]
fn around_the_pool(rt: HostRuntime) -> Result<(), Fail> {
    let range = Pages {
        first: 0x100,
        count: 0x80,
    };
    let pool = Pages {
        first: 0x120,
        count: 0x40,
    };
    let blocks = cut_blocks(rt.alloc(), &[range], Some(pool))?;
    let expected = [
        Block {
            first: 0x100,
            order: 5,
        },
        Block {
            first: 0x160,
            order: 5,
        },
    ];
    assert_eq!(rt; blocks.as_slice(), expected.as_slice());
    Ok(())
}
