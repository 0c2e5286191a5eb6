//! Why a script isn't read.

ghost use Rattle.std.specs.Prelude.{◌≡◌};
ghost use Rattle.guest_script.specs.declared.fault.LineFault.TheVariants.{Why as LineWhy, NoMemory as LineNoMemory};
ghost use Rattle.guest_script.specs.declared.fault.ScriptFault.TheVariants.{NoMemory as ScriptNoMemory};

use std::alloc::{AllocError, AllocFailed};
use thiserror::Error;

/// What is wrong with a line of a script.
#[derive(Clone, Copy, Debug, PartialEq, Eq)]
pub enum Why {
    /// A word is no command, no name, no direction or not `skip`.
    Word,
    /// A word is no number, or one that is out of its range: an order above 10, a byte above 255, or a mask other than 0 and 4095.
    Number,
    /// A word isn't 2 to 524,288 hexadecimal digits, an even number of them.
    Hex,
    /// The command has another number of words.
    Arity,
    /// The line has more than 1,048,576 bytes, its line feed not counted.
    TooLong,
    /// The line isn't UTF-8.
    NotUtf8,
}

/// Why a line isn't read.
#[derive(Clone, Copy, Debug, PartialEq, Eq)]
pub(crate) enum LineFault {
    /// The line has this fault.
    Why(Why),
    /// Out of memory.
    NoMemory,
}

/// Why a script isn't read: the first fault in the order of its lines.
#[derive(Clone, Copy, Debug, PartialEq, Eq, Drop, Error)]
pub enum ScriptFault {
    /// The line of this number, counted from 1, skipped ones too, has this fault.
    #[error("line {0}: {1:?}")]
    Line(u64, Why),
    /// There is a 2,049th command.
    #[error("too many lines")]
    TooManyCommands,
    /// The commands name more than 4,194,304 bytes together.
    #[error("too many bytes")]
    TooManyBytes,
    /// Out of memory.
    #[error("out of memory")]
    NoMemory,
}

impl From<Why> for LineFault {
    ghost from_gives = { λ why e. e ≡ LineWhy why };

    fn from(why: Why) -> LineFault {
        LineFault::Why(why)
    }
}

impl From<AllocError> for LineFault {
    ghost from_gives = { λ _ e. e ≡ LineNoMemory };

    fn from(_e: AllocError) -> LineFault {
        LineFault::NoMemory
    }
}

impl<T: Drop> From<AllocFailed<T>> for ScriptFault {
    ghost from_gives = { λ _ e. e ≡ ScriptNoMemory };

    fn from(_e: AllocFailed<T>) -> ScriptFault {
        ScriptFault::NoMemory
    }
}
