ghost use Rattle.std.specs.Prelude.{◌≡◌, ℕ, ◌+◌, List, Option, Some, None, ◌<◌, ◌≤◌, length, IfOk, IsErrOf, ◌⊎◌};
ghost use Rattle.guest_base.specs.Counts.{Rose, RoseByMoreThan};
ghost use Rattle.guest_io.specs.Reading.{AsksFor};
ghost use Rattle.guest_io.specs.declared.files.ReadFault.TheVariants.{NoMemory};

use guest_base::Bytes;
use std::alloc::{AllocError, AllocFailed, Global};

/// Why a file was not read.
#[derive(Clone, Copy, Debug, PartialEq, Eq)]
pub enum ReadFault {
    /// The outside failed: the count of faults rose.
    Failed,
    /// The file has more bytes than were asked for.
    TooLong,
    /// Out of memory.
    NoMemory,
}

impl From<AllocError> for ReadFault {
    ghost from_gives = { λ _ e. e ≡ NoMemory };

    fn from(_: AllocError) -> ReadFault {
        ReadFault::NoMemory
    }
}

impl<T: Drop> From<AllocFailed<T>> for ReadFault {
    ghost from_gives = { λ _ e. e ≡ NoMemory };

    fn from(_: AllocFailed<T>) -> ReadFault {
        ReadFault::NoMemory
    }
}

/// Files that are read whole, by name.
///
/// A count that stands at its last value, 2^64 - 1, counts as one that rose.
pub trait Files {
    /// The bytes of the file of this name, where they are known.
    ghost holds: { Self → List ℕ → Option (List ℕ) };

    /// The names asked for, in order.
    ghost asked: { Self → List (List ℕ) };

    /// How often the outside failed.
    ghost faults: { Self → ℕ };

    /// The bytes read, of all files.
    ghost bytes_read: { Self → ℕ };

    /// No call ever fails.
    ghost never_fails: { Self → Type 0 };

    /// All bytes of the file `name`, which has at most `max`. At most `max + 1` bytes are read.
    ///
    /// `Failed` comes only where the count of faults rises. `TooLong` comes only where the file has
    /// more than `max` bytes and, without a fault, wherever it has; where its bytes aren't known it
    /// comes only where more than `max` bytes were read. `NoMemory` is out of memory.
    fn read_all(&mut self, alloc: Global, name: &str, max: u64) -> Result<Bytes, ReadFault>
        ensures whole { IfOk result (λ bytes. (content : List ℕ)
            → holds self.old name.now ≡ Some content → bytes ≡ content) }
        ensures within { IfOk result (λ bytes. length bytes ≤ max) }

        ensures failed { IsErrOf result ReadFault.Failed
            → Rose (faults self.old) (faults self.new) }
        ensures too_long { IsErrOf result ReadFault.TooLong → (content : List ℕ)
            → holds self.old name.now ≡ Some content → max < length content }
        ensures too_long_unseen { IsErrOf result ReadFault.TooLong → holds self.old name.now ≡ None
            → RoseByMoreThan max (bytes_read self.old) (bytes_read self.new) }
        ensures long_refused { (content : List ℕ) → holds self.old name.now ≡ Some content
            → max < length content → ¬ Rose (faults self.old) (faults self.new)
            → IsErrOf result ReadFault.TooLong ⊎ IsErrOf result ReadFault.NoMemory }

        // What stays, whatever the answer.
        ensures same_files { holds self.new ≡ holds self.old }
        ensures asks { AsksFor name.now result (asked self.old) (asked self.new) }
        ensures faults_kept { faults self.old ≤ faults self.new }
        ensures bytes_kept { bytes_read self.old ≤ bytes_read self.new }
        ensures bytes_within { bytes_read self.new ≤ bytes_read self.old + (max + 1) }
        ensures never_fails_kept { never_fails self.old → never_fails self.new };

    /// What never fails has no fault.
    ghost no_fault: { (files : Self) → never_fails files → faults files ≡ 0 };
}
