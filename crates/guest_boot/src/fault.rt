//! Why boot didn't come to its end.
ghost use Rattle.std.specs.Prelude.{◌≡◌};
ghost use Rattle.guest_boot.specs.declared.fault.BootFault.TheVariants.{NoMemory};

use guest_base::Page;
use std::alloc::{AllocError, AllocFailed};

/// Why boot didn't come to its end.
#[derive(Clone, Copy, Debug, PartialEq, Eq)]
pub enum BootFault {
    /// No range of RAM holds the pool. The module wasn't asked.
    PoolNoRoom,
    /// The acceptance of an early piece, of the pool or of a block stopped at this page, whose call for 4 KiB the module failed; or
    /// the module failed to share the pool, which begins at this page.
    Module(Page),
    /// Out of memory.
    NoMemory,
}

impl From<AllocError> for BootFault {
    ghost from_gives = { λ _ e. e ≡ NoMemory };

    fn from(_e: AllocError) -> BootFault {
        BootFault::NoMemory
    }
}

impl<T: Drop> From<AllocFailed<T>> for BootFault {
    ghost from_gives = { λ _ e. e ≡ NoMemory };

    fn from(_e: AllocFailed<T>) -> BootFault {
        BootFault::NoMemory
    }
}
