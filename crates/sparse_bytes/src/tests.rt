use crate::SparseBytes;
use guest_base::Items;
use std::test::Fail;

/// The bytes of a block of order 10.
const BLOCK_BYTES: u64 = 4_194_304;

#[test]
fn reads_zeros_where_nothing_was_written(rt: HostRuntime) -> Result<(), Fail> {
    let block = SparseBytes::new(rt.alloc());
    let bytes = block.read(rt.alloc(), BLOCK_BYTES - 8, 8)?;
    assert_eq!(rt; bytes.as_slice(), [0; 8].as_slice());
    Ok(())
}

#[test]
fn reads_across_the_border_of_a_write(rt: HostRuntime) -> Result<(), Fail> {
    let mut block = SparseBytes::new(rt.alloc());
    block.fill(0, BLOCK_BYTES, 7)?;
    block.write(rt.alloc(), 4, &[1, 2, 3])?;
    let bytes = block.read(rt.alloc(), 2, 8)?;
    assert_eq!(rt; bytes.as_slice(), [7, 7, 1, 2, 3, 7, 7, 7].as_slice());
    let bytes = block.read(rt.alloc(), BLOCK_BYTES - 2, 4)?;
    assert_eq!(rt; bytes.as_slice(), [7, 7, 0, 0].as_slice());
    Ok(())
}

#[test]
fn later_runs_count(rt: HostRuntime) -> Result<(), Fail> {
    let mut block = SparseBytes::new(rt.alloc());
    block.reserve(3)?;
    block.write_reserved(2, Items::from_vec(Vec::from_slice(rt.alloc(), &[1, 2, 3])?));
    block.write_reserved(4, Items::from_vec(Vec::from_slice(rt.alloc(), &[4, 5])?));
    block.fill_reserved(1, 2, 9);
    let bytes = block.read(rt.alloc(), 0, 8)?;
    assert_eq!(rt; bytes.as_slice(), [0, 9, 9, 2, 4, 5, 0, 0].as_slice());
    let bytes = block.read(rt.alloc(), 5, 3)?;
    assert_eq!(rt; bytes.as_slice(), [5, 0, 0].as_slice());
    block.fill(0, BLOCK_BYTES, 0)?;
    let bytes = block.read(rt.alloc(), 0, 8)?;
    assert_eq!(rt; bytes.as_slice(), [0; 8].as_slice());
    Ok(())
}
