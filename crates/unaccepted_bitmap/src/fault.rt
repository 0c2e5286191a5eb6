//! Why an unaccepted table is refused, or doesn't fit a map.

ghost use Rattle.std.specs.Prelude.{◌≡◌};
ghost use Rattle.unaccepted_bitmap.specs.declared.fault.TableFault.TheVariants.{NoMemory};

use std::alloc::{AllocError, AllocFailed};
use thiserror::Error;

/// What is wrong with an unaccepted table: the first of these, in this order.
#[derive(Clone, Copy, Debug, PartialEq, Eq, Error)]
pub enum TableFault {
    /// The table, of this many bytes, ends before its 24 bytes of fields do.
    #[error("the table ends too early, after {0} bytes")]
    Short(u64),
    /// The version, this number, isn't 1.
    #[error("version {0}")]
    BadVersion(u32),
    /// A unit, of this many bytes, isn't a power of two from 4 KiB (4,096) to 2 MiB (2,097,152).
    #[error("units of {0} bytes")]
    BadUnit(u32),
    /// The base, this address in bytes, doesn't stand on a unit's border or is above 2^40.
    #[error("the base {0}")]
    BadBase(u64),
    /// The size of the bitmap, this many bytes, isn't the number of the bytes behind the fields, or a whole byte of bits lies
    /// above 2^40.
    #[error("a bitmap of {0} bytes")]
    BadLength(u64),
    /// Out of memory.
    #[error("no memory")]
    NoMemory,
}

/// A unit whose bit is set, and which doesn't lie in unaccepted memory: the first, counted from the base.
#[derive(Clone, Copy, Debug, PartialEq, Eq, Error)]
#[error("unit {0} isn't unaccepted memory")]
pub struct BadBit(pub u64);

impl From<AllocError> for TableFault {
    ghost from_gives = { λ _ e. e ≡ NoMemory };

    fn from(_e: AllocError) -> TableFault {
        TableFault::NoMemory
    }
}

impl<T: Drop> From<AllocFailed<T>> for TableFault {
    ghost from_gives = { λ _ e. e ≡ NoMemory };

    fn from(_e: AllocFailed<T>) -> TableFault {
        TableFault::NoMemory
    }
}
