//! The fields of a map file, from left to right. `size` is the length of the whole file.
ghost use Rattle.std.specs.Prelude.{◌≤◌, IfOk};
ghost use Rattle.guest_base.specs.declared.limits.TheConstants.{MAX_DESCRIPTORS};
ghost use Rattle.efi_map.specs.MapFile.{Gives, word_at, magic_at, stride_at, version_at, count_at, header_at};

use crate::fault::MapFault;
use byteorder::{ByteOrder, LittleEndian};
use guest_base::limits::MAX_DESCRIPTORS;

/// The bytes `GMAP`, as a number.
pub const MAGIC: u32 = 0x50414d47;

#[tactic(auto, unfolding(guest_map::specs::Fields::number))]
fn word(size: u64, bytes: &[u8]) -> Result<(u32, &[u8]), MapFault>
    ensures { Gives (λ x. (x.0, x.1.now)) result (word_at size bytes.now) }
{
    if bytes.len() < 4 {
        return Err(MapFault::Short(size));
    }
    Ok((LittleEndian::read_u32(bytes), &bytes[4..]))
}

#[tactic(auto, unfolding(crate::specs::MapFile::magic_at))]
fn magic(size: u64, bytes: &[u8]) -> Result<&[u8], MapFault>
    ensures { Gives (λ x. x.now) result (magic_at size bytes.now) }
{
    let (found, rest) = word(size, bytes)?;
    if found == MAGIC {
        Ok(rest)
    } else {
        Err(MapFault::BadMagic)
    }
}

#[tactic(auto, unfolding(crate::specs::MapFile::stride_at))]
fn stride(size: u64, bytes: &[u8]) -> Result<(u32, &[u8]), MapFault>
    ensures exact { Gives (λ x. (x.0, x.1.now)) result (stride_at size bytes.now) }
    ensures least { IfOk result (λ x. 40 ≤ x.0) }
{
    let (stride, rest) = word(size, bytes)?;
    if stride < 40 || stride > 256 || stride % 8 != 0 {
        return Err(MapFault::BadSize(stride));
    }
    Ok((stride, rest))
}

#[tactic(auto, unfolding(crate::specs::MapFile::version_at))]
fn version(size: u64, bytes: &[u8]) -> Result<&[u8], MapFault>
    ensures { Gives (λ x. x.now) result (version_at size bytes.now) }
{
    let (version, rest) = word(size, bytes)?;
    if version != 1 {
        return Err(MapFault::BadVersion(version));
    }
    Ok(rest)
}

/// The number of descriptors, or of host records, which have the same limit.
#[tactic(auto, unfolding(crate::specs::MapFile::count_at))]
pub fn count(size: u64, bytes: &[u8]) -> Result<(u32, &[u8]), MapFault>
    ensures exact { Gives (λ x. (x.0, x.1.now)) result (count_at size bytes.now) }
    ensures few { IfOk result (λ x. x.0 ≤ MAX_DESCRIPTORS) }
{
    let (count, rest) = word(size, bytes)?;
    if count > MAX_DESCRIPTORS {
        return Err(MapFault::TooMany(count));
    }
    Ok((count, rest))
}

/// The size of a descriptor and the number of descriptors, and what stands behind them.
#[tactic(auto, unfolding(crate::specs::MapFile::header_at))]
pub fn header(size: u64, bytes: &[u8]) -> Result<(u32, u32, &[u8]), MapFault>
    ensures exact { Gives (λ x. (x.0, x.1, x.2.now)) result (header_at size bytes.now) }
    ensures bounds { IfOk result (λ x. (40 ≤ x.0) × (x.1 ≤ MAX_DESCRIPTORS)) }
{
    let rest = magic(size, bytes)?;
    let (stride, rest) = stride(size, rest)?;
    let rest = version(size, rest)?;
    let (count, rest) = count(size, rest)?;
    Ok((stride, count, rest))
}
