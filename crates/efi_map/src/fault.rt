//! Why a map file is refused.

ghost use Rattle.std.specs.Prelude.{◌≡◌};
ghost use Rattle.efi_map.specs.declared.fault.MapFault.TheVariants.{NoMemory};

use std::alloc::{AllocError, AllocFailed};
use thiserror::Error;

/// What is wrong with a map file: the first fault in the order of its bytes. Descriptors and host records are counted
/// from 0, and descriptors without pages count too.
#[derive(Clone, Copy, Debug, PartialEq, Eq, Error)]
pub enum MapFault {
    /// The file, of this many bytes, ends before a field, a descriptor or a host record is whole.
    #[error("the file ends too early, after {0} bytes")]
    Short(u64),
    /// It doesn't begin with `GMAP`.
    #[error("no map file")]
    BadMagic,
    /// The size of a descriptor, this many bytes, isn't a multiple of 8 from 40 to 256.
    #[error("descriptors of {0} bytes")]
    BadSize(u32),
    /// The version, this number, isn't 1.
    #[error("version {0}")]
    BadVersion(u32),
    /// The count of descriptors or of host records, this number, is above 4,096.
    #[error("{0} descriptors or host records")]
    TooMany(u32),
    /// The descriptor of this number doesn't start on a page of 4,096 bytes.
    #[error("descriptor {0} doesn't start on a page")]
    Unaligned(u32),
    /// The descriptor of this number ends above 2^40 bytes, or above 2^64 where it isn't RAM.
    #[error("descriptor {0} ends too high")]
    TooHigh(u32),
    /// The descriptor of the second number has a byte in common with an earlier one, the first of which has the first number.
    #[error("descriptors {0} and {1} overlap")]
    Overlap(u32, u32),
    /// The descriptors up to here have more than 64 GiB of RAM.
    #[error("more than 64 GiB of RAM")]
    TooMuchRam,
    /// The host record of this number isn't made of whole pages, is empty, ends above 2^40 bytes, has a level above 2, or meets an
    /// earlier one.
    #[error("host record {0}")]
    BadHost(u32),
    /// Bytes stand behind the host records, from this place on, counted in bytes from 0.
    #[error("bytes behind the end, at {0}")]
    Trailing(u64),
    /// Out of memory.
    #[error("no memory")]
    NoMemory,
}

impl From<AllocError> for MapFault {
    ghost from_gives = { λ _ e. e ≡ NoMemory };

    fn from(_e: AllocError) -> MapFault {
        MapFault::NoMemory
    }
}

impl<T: Drop> From<AllocFailed<T>> for MapFault {
    ghost from_gives = { λ _ e. e ≡ NoMemory };

    fn from(_e: AllocFailed<T>) -> MapFault {
        MapFault::NoMemory
    }
}
