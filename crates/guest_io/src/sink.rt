ghost use Rattle.std.specs.Prelude.{◌≡◌, ℕ, List, Option, ◌≤◌, OnOk, IsErrOf, is_some};
ghost use Rattle.guest_base.specs.Counts.{Rose};
ghost use Rattle.guest_io.specs.Writing.{appended, AppendsPrefix};
ghost use Rattle.guest_io.specs.declared.sink.PutFault.TheVariants.{NoMemory};

use std::alloc::{AllocError, AllocFailed, Global};

/// Why bytes were not put whole.
#[derive(Clone, Copy, Debug, PartialEq, Eq)]
pub enum PutFault {
    /// The outside failed: the count of faults rose, and a prefix of the bytes was written.
    Failed,
    /// Out of memory: nothing was written.
    NoMemory,
}

impl From<AllocError> for PutFault {
    ghost from_gives = { λ _ e. e ≡ NoMemory };

    fn from(_: AllocError) -> PutFault {
        PutFault::NoMemory
    }
}

impl<T: Drop> From<AllocFailed<T>> for PutFault {
    ghost from_gives = { λ _ e. e ≡ NoMemory };

    fn from(_: AllocFailed<T>) -> PutFault {
        PutFault::NoMemory
    }
}

/// What takes bytes, each after those before it.
///
/// A count that stands at its last value, 2^64 - 1, counts as one that rose.
pub trait Sink {
    /// All bytes written, where they are known.
    ghost written: { Self → Option (List ℕ) };

    /// How often the outside failed.
    ghost faults: { Self → ℕ };

    /// No call ever fails.
    ghost never_fails: { Self → Type 0 };

    /// Writes these bytes after those before.
    ///
    /// `Failed` comes only where the count of faults rises, and then a prefix of the bytes is
    /// written. `NoMemory` is out of memory, and nothing is written.
    fn put(&mut self, alloc: Global, bytes: &[u8]) -> Result<(), PutFault>
        ensures ok { OnOk result (written self.new ≡ appended (written self.old) bytes.now) }
        ensures failed { IsErrOf result PutFault.Failed → Rose (faults self.old) (faults self.new) }
        ensures failed_within { IsErrOf result PutFault.Failed
            → AppendsPrefix (written self.old) bytes.now (written self.new) }
        ensures no_memory { IsErrOf result PutFault.NoMemory → written self.new ≡ written self.old }

        // What stays, whatever the answer.
        ensures known { is_some (written self.new) ≡ is_some (written self.old) }
        ensures faults_kept { faults self.old ≤ faults self.new }
        ensures never_fails_kept { never_fails self.old → never_fails self.new };

    /// What never fails has no fault.
    ghost no_fault: { (sink : Self) → never_fails sink → faults sink ≡ 0 };
}
