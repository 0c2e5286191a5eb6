use dma_map::Layout;
use event_core::{Command, Name, Reply};
use guest_base::{Block, CpuNo, Direction, Items, Pages, SlotRun};
use held_blocks::{HeldBlocks, Holdings};
use std::test::Fail;

/// A block of one page, and one behind it.
const FIRST: Block = Block { first: 8, order: 0 };

const SECOND: Block = Block { first: 9, order: 0 };

#[test]
fn reads_what_was_written(rt: HostRuntime) -> Result<(), Fail> {
    let name = Name::new(b"one").ok_or("name")?;
    let mut blocks = HeldBlocks::new(rt.alloc());
    blocks.reserve()?;
    blocks.got(rt.alloc(), name.copy(), FIRST);
    blocks.write(rt.alloc(), &name, 4094, &[1, 2])?;
    let bytes = blocks.read(rt.alloc(), &name, 4093, 3)?;
    assert_eq!(rt; bytes.as_slice(), [0, 1, 2].as_slice());
    let bytes = blocks.load(rt.alloc(), &name, 4094)?;
    assert_eq!(rt; bytes.as_slice(), [1, 2, 0, 0, 0, 0, 0, 0].as_slice());
    Ok(())
}

#[test]
fn fills_and_frees_by_name(rt: HostRuntime) -> Result<(), Fail> {
    let one = Name::new(b"one").ok_or("one")?;
    let two = Name::new(b"two").ok_or("two")?;
    let mut blocks = HeldBlocks::new(rt.alloc());
    blocks.reserve()?;
    blocks.got(rt.alloc(), one.copy(), FIRST);
    blocks.reserve()?;
    blocks.got(rt.alloc(), two.copy(), SECOND);
    blocks.fill(&two, 0, 4096, 7)?;
    blocks.freed(&one);
    assert_eq!(rt; blocks.block_of(&one), None);
    assert_eq!(rt; blocks.block_of(&two), Some(SECOND));
    Ok(())
}

#[test]
fn refuses_by_name(rt: HostRuntime) -> Result<(), Fail> {
    let one = Name::new(b"one").ok_or("one")?;
    let two = Name::new(b"two").ok_or("two")?;
    let mut held = Holdings::new(rt.alloc(), None);
    held.reserve_block()?;
    held.got(rt.alloc(), two.copy(), SECOND);
    assert!(rt; held.refusal(&Command::Free { name: one }).is_some());
    assert!(rt;
        held.refusal(&Command::Load {
            name: two,
            off: 4095
        })
        .is_none()
    );
    Ok(())
}

/// A pool of two areas, and slots of the second one.
const POOL: Layout = Layout {
    pool: Pages {
        first: 256,
        count: 128,
    },
    slots: 256,
    areas: 2,
};

const RUN: SlotRun = SlotRun {
    area: 1,
    first: 6,
    count: 2,
    offset: 0,
    len: 16,
};

#[test]
fn holds_bytes_by_name(rt: HostRuntime) -> Result<(), Fail> {
    let name = Name::new(b"one").ok_or("name")?;
    let mut held = Holdings::new(rt.alloc(), None);
    held.reserve_block()?;
    held.got(rt.alloc(), name.copy(), FIRST);
    held.write(rt.alloc(), &name, 4094, &[1, 2])?;
    held.fill(&name, 0, 2, 7)?;
    let bytes = held.read(rt.alloc(), &name, 4093, 3)?;
    assert_eq!(rt; bytes.as_slice(), [0, 1, 2].as_slice());
    let bytes = held.load(rt.alloc(), &name, 0)?;
    assert_eq!(rt; bytes.as_slice(), [7, 7, 0, 0, 0, 0, 0, 0].as_slice());
    Ok(())
}

#[test]
fn copies_between_block_and_mapping(rt: HostRuntime) -> Result<(), Fail> {
    let name = Name::new(b"one").ok_or("name")?;
    let mapping = Name::new(b"rx").ok_or("mapping")?;
    let mut held = Holdings::new(rt.alloc(), Some(POOL));
    held.reserve_block()?;
    held.got(rt.alloc(), name.copy(), FIRST);
    held.reserve_mapping()?;
    held.mapped(mapping.copy(), &name, 8, Direction::Both, RUN);
    held.reserve_copy(&mapping)?;
    let more = Vec::from_slice(rt.alloc(), &[5, 6])?;
    held.copied_out(&mapping, 4, Items::from_vec(more));
    let bytes = held.mapped_bytes(rt.alloc(), &mapping, 2, 4)?;
    assert_eq!(rt; bytes.as_slice(), [0, 0, 5, 6].as_slice());
    Ok(())
}

#[test]
fn tells_looks_and_ends(rt: HostRuntime) -> Result<(), Fail> {
    let mapping = Name::new(b"rx").ok_or("mapping")?;
    let mut held = Holdings::new(rt.alloc(), Some(POOL));
    assert_eq!(rt; held.area_to_look(CpuNo(3)), 1);
    assert!(rt; held.look_reply(None).is_none());
    held.looked();
    assert_eq!(rt; held.area_to_look(CpuNo(3)), 0);
    assert!(rt; matches!(held.look_reply(None), Some(Reply::Full)));
    assert!(rt; matches!(held.look_reply(Some(RUN)), Some(Reply::Addr(1_323_008))));
    held.ended();
    held.unmapped(&mapping);
    assert!(rt; held.mapping(&mapping).is_none());
    Ok(())
}
