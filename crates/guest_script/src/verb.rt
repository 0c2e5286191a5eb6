//! The words of the commands.
ghost use Rattle.std.specs.Prelude.{◌≡◌};
ghost use Rattle.guest_script.specs.Verbs.{beside, memory_words, block_words, pool_words, verb_of};

/// What a command asks.
#[derive(Clone, Copy, Debug, PartialEq, Eq)]
pub(crate) enum Verb {
    Memory(MemoryVerb),
    Block(BlockVerb),
    Pool(PoolVerb),
}

/// The commands of memory.
#[derive(Clone, Copy, Debug, PartialEq, Eq)]
pub(crate) enum MemoryVerb {
    Alloc,
    Free,
    Accept,
    Query,
    Share,
    Private,
    Giveback,
}

/// The commands of a block's bytes.
#[derive(Clone, Copy, Debug, PartialEq, Eq)]
pub(crate) enum BlockVerb {
    Read,
    Write,
    Fill,
    Load,
}

/// The commands of the pool, its device and its host.
#[derive(Clone, Copy, Debug, PartialEq, Eq)]
pub(crate) enum PoolVerb {
    Map,
    SyncDev,
    SyncCpu,
    Unmap,
    DRead,
    DWrite,
    HostRead,
    HostWrite,
}

/// What a command's first word asks.
#[tactic(auto, unfolding(crate::specs::Verbs::verb_of))]
pub(crate) fn verb_of(word: &[u8]) -> Option<Verb>
    ensures { result ≡ verb_of word.now }
{
    if let Some(verb) = memory_verb(word) {
        return Some(Verb::Memory(verb));
    }
    if let Some(verb) = block_verb(word) {
        return Some(Verb::Block(verb));
    }
    if let Some(verb) = pool_verb(word) {
        return Some(Verb::Pool(verb));
    }
    None
}

fn memory_verb(word: &[u8]) -> Option<MemoryVerb>
    ensures { result ≡ beside word.now memory_words }
{
    if word == b"alloc".as_slice() {
        Some(MemoryVerb::Alloc)
    } else if word == b"free".as_slice() {
        Some(MemoryVerb::Free)
    } else if word == b"accept".as_slice() {
        Some(MemoryVerb::Accept)
    } else if word == b"query".as_slice() {
        Some(MemoryVerb::Query)
    } else if word == b"share".as_slice() {
        Some(MemoryVerb::Share)
    } else if word == b"private".as_slice() {
        Some(MemoryVerb::Private)
    } else if word == b"giveback".as_slice() {
        Some(MemoryVerb::Giveback)
    } else {
        None
    }
}

fn block_verb(word: &[u8]) -> Option<BlockVerb>
    ensures { result ≡ beside word.now block_words }
{
    if word == b"read".as_slice() {
        Some(BlockVerb::Read)
    } else if word == b"write".as_slice() {
        Some(BlockVerb::Write)
    } else if word == b"fill".as_slice() {
        Some(BlockVerb::Fill)
    } else if word == b"load".as_slice() {
        Some(BlockVerb::Load)
    } else {
        None
    }
}

fn pool_verb(word: &[u8]) -> Option<PoolVerb>
    ensures { result ≡ beside word.now pool_words }
{
    if word == b"map".as_slice() {
        Some(PoolVerb::Map)
    } else if word == b"syncdev".as_slice() {
        Some(PoolVerb::SyncDev)
    } else if word == b"synccpu".as_slice() {
        Some(PoolVerb::SyncCpu)
    } else if word == b"unmap".as_slice() {
        Some(PoolVerb::Unmap)
    } else if word == b"dread".as_slice() {
        Some(PoolVerb::DRead)
    } else if word == b"dwrite".as_slice() {
        Some(PoolVerb::DWrite)
    } else if word == b"hostread".as_slice() {
        Some(PoolVerb::HostRead)
    } else if word == b"hostwrite".as_slice() {
        Some(PoolVerb::HostWrite)
    } else {
        None
    }
}
