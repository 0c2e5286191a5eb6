//! Names of blocks and mappings.
ghost use Rattle.std.specs.Prelude.{◌≡◌, ◌↔◌, length, IsTrue, IfSome, IfNone};
ghost use Rattle.event_core.specs.Name.{IsName, name_character};

use std::marker::Model;

/// The most characters of a name.
const MOST: usize = 32;

/// A name: 1 to 32 of the characters a to z, A to Z, 0 to 9 and `_`, which contracts see as their bytes.
#[derive(Debug, Drop)]
pub struct Name {
    characters: [u8; 32],
    count: usize,
}

impl Model for Name {
    ghost use Rattle.std.specs.Prelude.{List, ℕ, take, ◌≤◌};
    ghost use Rattle.event_core.specs.Name.{IsName};

    ghost Value = { List ℕ };

    ghost view = { λ n. take n.count n.characters };

    ghost invariant = { λ n. (n.count ≤ 32) × IsName (take n.count n.characters) };
}

impl Name {
    /// The name of these bytes. None exactly where they aren't 1 to 32 of the characters of a name.
    pub fn new(bytes: &[u8]) -> Option<Name>
        ensures some { IfSome result (λ n. (n ≡ bytes.now) × IsName bytes.now) }
        ensures none { IfNone result (¬ IsName bytes.now) }
    {
        if bytes.is_empty() || bytes.len() > MOST || !bytes.iter().all(|b| is_name_character(*b)) {
            return None;
        }
        let mut characters = [0; 32];
        characters[..bytes.len()].copy_from_slice(bytes);
        Some(Name {
            characters,
            count: bytes.len(),
        })
    }

    /// The characters.
    pub fn as_bytes(&self) -> &[u8]
        ensures same { result.now ≡ self.now }
        ensures name { IsName self.now }
    {
        &self.characters[..self.count]
    }

    /// The same name once more.
    pub fn copy(&self) -> Name
        ensures { result ≡ self.now }
    {
        Name {
            characters: self.characters,
            count: self.count,
        }
    }

    /// Whether the two are one name.
    pub fn is(&self, other: &Name) -> bool
        ensures { IsTrue result ↔ (self.now ≡ other.now) }
    {
        self.as_bytes() == other.as_bytes()
    }
}

fn is_name_character(byte: u8) -> bool
    ensures { result ≡ name_character byte }
{
    byte.is_ascii_alphanumeric() || byte == b'_'
}
