//! Mappings of the bounce-buffer pool.

/// Which way a mapping's bytes go.
#[derive(Clone, Copy, Debug, PartialEq, Eq)]
pub enum Direction {
    ToDevice,
    FromDevice,
    Both,
}

/// Which slots a mapping may begin at.
#[derive(Clone, Copy, Debug, PartialEq, Eq)]
pub enum Align {
    Any,
    Even,
    Odd,
}

/// What a mapping asks of the pool: `need` slots in a row, and `len` bytes from `offset` on in them.
#[derive(Clone, Copy, Debug, PartialEq, Eq)]
pub struct Request {
    pub need: u32,
    pub align: Align,
    pub offset: u32,
    pub len: u32,
}

/// A live mapping: `count` slots of an area from `first` on, and `len` bytes from `offset` on in them.
#[derive(Clone, Copy, Debug, PartialEq, Eq)]
pub struct SlotRun {
    pub area: u32,
    pub first: u32,
    pub count: u32,
    pub offset: u32,
    pub len: u32,
}
