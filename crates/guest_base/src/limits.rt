//! The limits of a guest and of the files that describe it.

/// The bytes of a page.
pub const PAGE_BYTES: u64 = 4096;
/// No page has this number or a greater one: memory ends at 2^40 bytes.
pub const PAGE_END: u64 = 1 << 28;
/// The first address behind all memory, in bytes.
pub const ADDRESS_END: u64 = 1 << 40;
/// The greatest order of a block, which then has 1,024 pages.
pub const MAX_ORDER: u32 = 10;
/// The bytes of a slot of the bounce-buffer pool.
pub const SLOT_BYTES: u64 = 2048;
/// The slots of a segment: no mapping crosses from one segment into the next.
pub const SEGMENT_SLOTS: u32 = 128;
/// The greatest number of processors, scripts and ports.
pub const MAX_CPUS: u32 = 64;
/// The greatest amount of RAM, in pages: 64 GiB.
pub const MAX_RAM_PAGES: u64 = 1 << 24;
/// The greatest number of memory descriptors in a map file.
pub const MAX_DESCRIPTORS: u32 = 4096;
/// The greatest number of host records in a map file.
pub const MAX_HOSTS: u32 = 4096;
/// The greatest size of a map file, in bytes.
pub const MAX_MAP_BYTES: u64 = 1_130_516;
/// The greatest size of a script file, in bytes.
pub const MAX_SCRIPT_BYTES: u64 = 16_777_216;
/// The greatest size of a script's line, in bytes, its line feed not counted.
pub const MAX_LINE_BYTES: u64 = 1_048_576;
/// The greatest number of commands in a script.
pub const MAX_COMMANDS: u64 = 2048;
/// The greatest number of bytes that the commands of one script name together.
pub const MAX_NAMED_BYTES: u64 = 4_194_304;
/// The greatest size of an order file, in bytes.
pub const MAX_ORDER_BYTES: u64 = 67_108_864;
/// The greatest number of turns that an order file names.
pub const MAX_TURNS: u64 = 16_777_216;
/// The greatest number of slots of the pool.
pub const MAX_SLOTS: u32 = 131_072;
/// The greatest number of areas of the pool.
pub const MAX_AREAS: u32 = 64;
/// The greatest number of bytes that one command writes out, in hexadecimal digits.
pub const MAX_HEX_BYTES: u64 = 262_144;
