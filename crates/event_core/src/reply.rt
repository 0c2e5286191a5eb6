//! What a command is answered.

use guest_base::Bytes;

/// What a load finds in the page after its block.
#[derive(Clone, Copy, Debug, PartialEq, Eq)]
pub enum Found {
    Accepted,
    Shared,
    /// In conversion, left half converted, or given back and not accepted since.
    Absent,
    /// Not RAM.
    Outside,
}

/// The answer to a command.
#[derive(Debug, Drop)]
pub enum Reply {
    Done,
    /// An address in bytes.
    Addr(u64),
    /// How many units an acceptance cleared.
    Count(u64),
    Hex(Bytes),
    /// Eight bytes, and what stood after the block where they end past it.
    Loaded(Bytes, Option<Found>),
    /// Whether something of the range is unaccepted.
    Query(bool),
    NoBlock,
    Unknown,
    Taken,
    Range,
    IsShared,
    IsPrivate,
    Half,
    Mapped,
    TooLong,
    Zero,
    Full,
    NoPool,
    /// The block is smaller than 4 MiB.
    Small,
    /// A page of the block lies in no unit of the bitmap.
    NoUnit,
    Module,
}
