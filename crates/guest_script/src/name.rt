//! Names of blocks and mappings.
ghost use Rattle.std.specs.Prelude.{◌≡◌};
ghost use Rattle.guest_script.specs.Arguments.{name_of};

use event_core::Name;

/// The name that a word is. None exactly where it isn't 1 to 32 of the characters a to z, A to Z, 0 to 9
/// and `_`.
pub fn read_name(word: &[u8]) -> Option<Name>
    ensures { result ≡ name_of word.now }
{
    Name::new(word)
}
