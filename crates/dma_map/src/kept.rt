//! A processor's live mappings by their names.
ghost use Rattle.std.specs.Prelude.{◌≡◌, ◌<◌, ◌≤◌, ◌+◌, [], ◌∷◌, not, is_some, OnOk, filter, position};
ghost use Rattle.std.specs.List.{list_any};
ghost use Rattle.std.specs.Option.{option_map};
ghost use Rattle.std.specs.Str.{bytes_eq};
ghost use Rattle.std.specs.VecDeque.{deque_capacity, deque_len};
ghost use Rattle.event_core.specs.Holdings.{asks_in, asks_out, same_block};

use event_core::Name;
use guest_base::{Block, Direction, SlotRun};
use std::alloc::{AllocError, Global};
use std::collections::VecDeque;
use std::marker::Model;

/// A live mapping: its slots, the block that it maps, the place of its first byte in the block, in bytes, and its direction.
#[derive(Clone, Copy, Debug, PartialEq, Eq)]
pub struct Live {
    pub run: SlotRun,
    pub block: Block,
    pub off: u32,
    pub direction: Direction,
}

impl Live {
    /// Whether its direction asks for copies from the block into the pool.
    pub fn asks_in(&self) -> bool
        ensures { result ≡ asks_in self.now.direction }
    {
        match self.direction {
            Direction::ToDevice | Direction::Both => true,
            Direction::FromDevice => false,
        }
    }

    /// Whether its direction asks for copies from the pool into the block.
    pub fn asks_out(&self) -> bool
        ensures { result ≡ asks_out self.now.direction }
    {
        match self.direction {
            Direction::FromDevice | Direction::Both => true,
            Direction::ToDevice => false,
        }
    }
}

/// A live mapping with its name.
#[derive(Debug, Drop)]
pub(crate) struct KeptMapping {
    pub(crate) name: Name,
    pub(crate) live: Live,
}

/// Live mappings by their names, the newest first.
#[derive(Debug, Drop)]
pub struct Mappings {
    kept: VecDeque<KeptMapping>,
}

impl Model for Mappings {
    ghost use Rattle.std.specs.Prelude.{◌-◌, map};
    ghost use Rattle.std.specs.VecDeque.{deque_capacity, deque_len};
    ghost use Rattle.dma_map.specs.Kept.{Kept, kept_as};

    ghost Value = { Kept };

    ghost view = { λ m. record {
      mappings = map kept_as m.kept.items;
      room = deque_capacity m.kept - deque_len m.kept;
    } };
}

impl Mappings {
    ghost use Rattle.dma_map.specs.Kept.{live_of, mapping_by, mapping_in};

    /// No mapping, and room for none.
    pub fn new(alloc: Global) -> Mappings
        ensures { result.mappings ≡ [] }
    {
        Mappings {
            kept: VecDeque::new(alloc),
        }
    }

    /// Makes room for one more mapping. `AllocError` is out of memory. Whatever the answer, the mappings stay, and the
    /// room, in mappings, doesn't shrink.
    pub fn reserve(&mut self) -> Result<(), AllocError>
        ensures ok { OnOk result (0 < self.new.room) }
        ensures same { self.new.mappings ≡ self.old.mappings }
        ensures room { self.old.room ≤ self.new.room }
    {
        self.kept.reserve(1)
    }

    /// Keeps one more mapping, the newest, under a name. It needs room for one, and can't fail.
    pub fn insert(&mut self, name: Name, live: Live)
        requires { 0 < self.old.room }
        ensures kept { self.new.mappings ≡ mapping_by name live ∷ self.old.mappings }
        ensures room { self.old.room ≤ self.new.room + 1 }
    {
        self.kept.push_front_reserved(KeptMapping { name, live });
    }

    /// The newest mapping of a name. None exactly where no mapping has it.
    pub fn find(&self, name: &Name) -> Option<Live>
        ensures { result ≡ option_map live_of (mapping_in self.now name.now) }
    {
        let at = place_of(&self.kept, name)?;
        Some(self.kept[at].live)
    }

    /// No longer keeps the mappings of a name. Where there is none nothing changes.
    pub fn remove(&mut self, name: &Name)
        ensures kept { self.new.mappings
            ≡ filter (λ m. not (bytes_eq m.name name.now)) self.old.mappings }
        ensures room { self.old.room ≤ self.new.room }
    {
        drop_named(&mut self.kept, name);
    }

    /// Whether some mapping is of this block.
    pub fn any_in(&self, block: Block) -> bool
        ensures { result ≡ list_any (λ m. same_block m.block block) self.now.mappings }
    {
        place_in(&self.kept, block).is_some()
    }
}

/// The place of a name among the mappings. None exactly where no mapping has it.
fn place_of(kept: &VecDeque<KeptMapping>, name: &Name) -> Option<usize>
    ensures { result ≡ position (λ m. bytes_eq m.name name.now) kept.now.items }
{
    kept.iter().position(|m| m.name.is(name))
}

/// The place of the first mapping of a block. None exactly where no mapping is of it.
fn place_in(kept: &VecDeque<KeptMapping>, block: Block) -> Option<usize>
    ensures { result ≡ position (λ m. same_block m.live.block block) kept.now.items }
{
    kept.iter().position(|m| is_same(m.live.block, block))
}

/// Whether two blocks are one.
fn is_same(one: Block, other: Block) -> bool
    ensures { result ≡ same_block one other }
{
    one.first == other.first && one.order == other.order
}

/// Drops the mappings of a name.
fn drop_named(kept: &mut VecDeque<KeptMapping>, name: &Name)
    ensures items { kept.new.items
        ≡ filter (λ m. not (bytes_eq m.name name.now)) kept.old.items }
    ensures len { deque_len kept.new ≤ deque_len kept.old }
    ensures capacity { deque_capacity kept.new ≡ deque_capacity kept.old }
{
    kept.retain(|m| !m.name.is(name));
}

#[cfg(test)]
mod tests {
    use super::*;
    use std::test::Fail;

    #[test]
    fn keeps_by_name(rt: HostRuntime) -> Result<(), Fail> {
        let name = Name::new(b"rx").ok_or("name")?;
        let block = Block { first: 8, order: 3 };
        let live = Live {
            run: SlotRun {
                area: 0,
                first: 4,
                count: 2,
                offset: 0,
                len: 4096,
            },
            block,
            off: 512,
            direction: Direction::Both,
        };
        let mut mappings = Mappings::new(rt.alloc());
        mappings.reserve()?;
        mappings.insert(name.copy(), live);
        assert_eq!(rt; mappings.find(&name), Some(live));
        assert!(rt; mappings.any_in(block));
        assert!(rt; live.asks_in() && live.asks_out());
        mappings.remove(&name);
        assert_eq!(rt; mappings.find(&name), None);
        assert!(rt; !mappings.any_in(block));
        Ok(())
    }
}
