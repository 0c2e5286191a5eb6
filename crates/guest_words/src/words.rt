//! The words of a run.
ghost use Rattle.std.specs.Prelude.{◌≡◌, IfSome};
ghost use Rattle.guest_words.specs.Words.{bytes_of_words, cpus_in, named_as, named_by, KeepsLimits};
ghost use Rattle.guest_words.specs.Views.{named, seen};

use crate::mode::{Mode, mode_of};
use crate::told::SoFar;
use arrayvec::ArrayVec;
use guest_base::limits::MAX_CPUS;

/// The greatest number of scripts, and so of processors.
pub const MAX_SCRIPTS: usize = MAX_CPUS as usize;

/// What the words of a run name.
#[derive(Debug, Drop)]
pub struct Names<'a> {
    /// The file of the order, of a run by turns.
    pub order: Option<&'a str>,
    /// The slots that are asked for the pool, 0 to 131,072; with 0 there is no pool.
    pub slots: u32,
    /// The areas of the pool: a power of two from 1 to 64.
    pub areas: u32,
    /// The file of an earlier kernel's table.
    pub table: Option<&'a str>,
    /// The file of the map.
    pub map: &'a str,
    /// The files of the scripts, 1 to 64, in the order of their processors.
    pub scripts: ArrayVec<&'a str, MAX_SCRIPTS>,
}

impl Names<'_> {
    /// The number of processors: a script for each.
    pub fn cpus(&self) -> u32
        ensures { result ≡ cpus_in (seen self.now) }
    {
        self.scripts.len() as u32
    }
}

/// What the words name. None exactly where they aren't in the grammar: `turns`, and then ORDER MAP SCRIPT.., or `run`, and then
/// MAP SCRIPT.., with 1 to 64 scripts, and the options `--slots N`, `--areas N` and `--table FILE` at any place behind the first
/// word, each at most once, and spelt also `--slots=N`. `--` ends the options, and a value begins with no dash. N of `--slots`
/// is 0 to 131,072, and 32,768 where none is given; N of `--areas` is a power of two from 1 to 64, and where none is given the
/// number of scripts, raised to a power of two. Takes no memory.
pub fn read_words(words: &[String]) -> Option<Names<'_>>
    ensures named { named result ≡ named_by (bytes_of_words words.now) }
    ensures limits { IfSome result (λ names. KeepsLimits (seen names)) }
{
    let [command, rest @ ..] = words else {
        return None;
    };
    let mode = mode_of(command.as_str())?;
    read_run(mode, rest)
}

/// What the words behind the first name.
fn read_run(mode: Mode, words: &[String]) -> Option<Names<'_>>
    ensures named { named result ≡ named_as mode (bytes_of_words words.now) }
    ensures limits { IfSome result (λ names. KeepsLimits (seen names)) }
{
    let mut so_far = SoFar::new();
    for word in words {
        so_far = so_far.with_word(word.as_str())?;
    }
    so_far.names(mode)
}
