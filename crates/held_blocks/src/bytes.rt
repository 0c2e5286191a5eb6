//! The bytes of the blocks that a processor holds.
ghost use Rattle.std.specs.Prelude.{◌≡◌, [], ◌∷◌, true, false, length, IfOk, OnOk, OnErr};
ghost use Rattle.std.specs.List.{repeat};
ghost use Rattle.std.specs.Option.{ForSome, IsSome};
ghost use Rattle.event_core.specs.Bytes.{row_of};
ghost use Rattle.event_core.specs.Holdings.{block_named};
ghost use Rattle.event_core.specs.Own.{with_bytes_at};
ghost use Rattle.event_core.specs.OwnRows.{is_inside, strayed_bytes};
ghost use Rattle.held_blocks.specs.Held.{EndsWithin};
ghost use Rattle.held_blocks.specs.Holdings.{own_in, Leaves, LeavesAll};

use crate::holdings::Holdings;
use event_core::Name;
use guest_base::Bytes;
use std::alloc::{AllocError, Global};

impl Holdings {
    /// The bytes of `len` places of a block from `off` on, in order. `AllocError` is out of memory.
    pub fn read(&self, alloc: Global, name: &Name, off: u64, len: u64) -> Result<Bytes, AllocError>
        requires { EndsWithin (own_in self.now) name.now off len }
        ensures bytes { IfOk result (λ bytes. ForSome (block_named (own_in self.now) name.now) (λ h.
            bytes ≡ row_of h.bytes off len)) }
        ensures count { IfOk result (λ bytes. length bytes ≡ len) }
    {
        self.blocks.read(alloc, name, off, len)
    }

    /// Whether a load of eight bytes from `off` on ends in its block.
    pub fn is_inside(&self, name: &Name, off: u64) -> bool
        requires { IsSome (block_named (own_in self.now) name.now) }
        ensures { ForSome (block_named (own_in self.now) name.now) (λ h.
            result ≡ is_inside h.block off) }
    {
        self.blocks.is_inside(name, off)
    }

    /// The eight bytes of a load from `off` on, a byte of the block: those past its end are zero. `AllocError` is out of memory.
    pub fn load(&self, alloc: Global, name: &Name, off: u64) -> Result<Bytes, AllocError>
        requires { EndsWithin (own_in self.now) name.now off 1 }
        ensures { IfOk result (λ bytes. ForSome (block_named (own_in self.now) name.now) (λ h.
            (is_inside h.block off ≡ true → bytes ≡ row_of h.bytes off 8)
            × (is_inside h.block off ≡ false → bytes ≡ strayed_bytes h off))) }
    {
        self.blocks.load(alloc, name, off)
    }

    /// Writes bytes of a block from `off` on. `AllocError` is out of memory, and then nothing but room changes.
    pub fn write(
        &mut self,
        alloc: Global,
        name: &Name,
        off: u64,
        bytes: &[u8],
    ) -> Result<(), AllocError>
        requires { EndsWithin (own_in self.old) name.now off (length bytes.now) }
        ensures ok { OnOk result (ForSome (block_named (own_in self.old) name.now) (λ h.
            Leaves self.old self.new (with_bytes_at h.block off bytes.now (own_in self.old)))) }
        ensures err { OnErr result (LeavesAll self.old self.new) }
    {
        self.blocks.write(alloc, name, off, bytes)
    }

    /// Fills `len` bytes of a block from `off` on with a byte. `AllocError` is out of memory, and then nothing but room changes.
    pub fn fill(&mut self, name: &Name, off: u64, len: u64, byte: u8) -> Result<(), AllocError>
        requires { EndsWithin (own_in self.old) name.now off len }
        ensures ok { OnOk result (ForSome (block_named (own_in self.old) name.now) (λ h.
            Leaves self.old self.new
            (with_bytes_at h.block off (repeat len (byte ∷ [])) (own_in self.old)))) }
        ensures err { OnErr result (LeavesAll self.old self.new) }
    {
        self.blocks.fill(name, off, len, byte)
    }
}
