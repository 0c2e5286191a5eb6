//! The file of an unaccepted table (after Linux's `struct efi_unaccepted_memory`). Numbers are little endian.
ghost use Rattle.std.specs.Prelude.{◌≡◌, ◌*◌, ◌^◌, ◌<◌, ◌≤◌, ◌++◌, IfOk, OnOk, length};
ghost use Rattle.guest_base.specs.declared.limits.TheConstants.{ADDRESS_END};
ghost use Rattle.event_core.specs.Table.{is_unit, most_bytes};
ghost use Rattle.unaccepted_bitmap.specs.TableFile.{GivesTable, header_of, header_fault, table_of, table_bytes_of};

use crate::bitmap::Bitmap;
use crate::fault::TableFault;
use byteorder::{ByteOrder, LittleEndian};
use guest_base::Bytes;
use guest_base::limits::ADDRESS_END;
use guest_map::{put_long, put_word};
use std::alloc::{AllocError, Global};

/// The version of a table.
const VERSION: u64 = 1;

/// The bytes of the fields before the bits.
const HEADER_BYTES: usize = 24;

/// The fields of a table, which stand before its bits.
#[derive(Clone, Copy, Debug)]
pub struct Header {
    pub version: u32,
    /// The bytes of a unit.
    pub unit: u32,
    /// The address of the first unit, in bytes.
    pub base: u64,
    /// The bytes of bits.
    pub size: u64,
}

#[tactic(auto, unfolding(guest_map::specs::Fields::number, crate::specs::TableFile::header_of))]
fn read_header(bytes: &[u8]) -> Header
    requires { 24 ≤ length bytes.now }
    ensures { result ≡ header_of bytes.now }
{
    Header {
        version: LittleEndian::read_u32(bytes),
        unit: LittleEndian::read_u32(&bytes[4..]),
        base: LittleEndian::read_u64(&bytes[8..]),
        size: LittleEndian::read_u64(&bytes[16..]),
    }
}

/// Whether this many bytes are a unit: a power of two from 4 KiB to 2 MiB.
fn is_unit(unit: u64) -> bool
    ensures { result ≡ is_unit unit }
{
    for order in 0..10u32 {
        if unit == 4096 << order {
            return true;
        }
    }
    false
}

/// The most bytes of bits from a base on: their last byte begins below 2^40.
fn most_bytes(unit: u64, base: u64) -> u64
    requires some { 0 < unit }
    requires room { 8 * unit < 2 ^ 64 }
    requires low { base ≤ ADDRESS_END }
    ensures { result ≡ most_bytes unit base }
{
    (ADDRESS_END - base).div_ceil(8 * unit)
}

/// The first thing that is wrong with the fields of a table behind which this many bytes stand.
fn header_fault(header: Header, left: u64) -> Option<TableFault>
    ensures { result ≡ header_fault header left }
{
    let unit = u64::from(header.unit);
    if u64::from(header.version) != VERSION {
        Some(TableFault::BadVersion(header.version))
    } else if !is_unit(unit) {
        Some(TableFault::BadUnit(header.unit))
    } else if header.base % unit != 0 || header.base > ADDRESS_END {
        Some(TableFault::BadBase(header.base))
    } else if header.size != left || left > most_bytes(unit, header.base) {
        Some(TableFault::BadLength(header.size))
    } else {
        None
    }
}

/// The bitmap that a table holds, or the first refusal (`TableFault` tells each).
#[tactic(auto, unfolding(crate::specs::TableFile::table_of, crate::specs::TableFile::table_fault))]
pub fn read_table(alloc: Global, bytes: &[u8]) -> Result<Bitmap, TableFault>
    // It is the bitmap of these bytes, or their first refusal, unless memory ran out.
    ensures { GivesTable result (table_of bytes.now) }
{
    if bytes.len() < HEADER_BYTES {
        return Err(TableFault::Short(bytes.len() as u64));
    }
    let header = read_header(bytes);
    let bits = &bytes[HEADER_BYTES..];
    if let Some(fault) = header_fault(header, bits.len() as u64) {
        return Err(fault);
    }
    Ok(Bitmap::from_bits(
        u64::from(header.unit),
        header.base,
        Vec::from_slice(alloc, bits)?,
    ))
}

/// The table of a bitmap of these bytes of a unit, this base in bytes, and these bits.
#[tactic(auto, unfolding(crate::specs::TableFile::table_bytes_of))]
pub fn table_bytes(alloc: Global, unit: u64, base: u64, bits: &[u8]) -> Result<Bytes, AllocError>
    ensures { IfOk result (λ bytes. bytes ≡
        table_bytes_of (record { unit = unit; base = base; bits = bits.now })) }
{
    let mut out = Vec::new(alloc);
    put_word(&mut out, VERSION)?;
    put_word(&mut out, unit)?;
    put_long(&mut out, u128::from(base))?;
    put_long(&mut out, bits.len() as u128)?;
    out.extend_from_slice(bits)?;
    Ok(Bytes::from_vec(out))
}
