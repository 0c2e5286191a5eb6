//! Bytes in hexadecimal digits.
ghost use Rattle.std.specs.Prelude.{◌≡◌, IfOk};
ghost use Rattle.guest_script.specs.Arguments.{hex_of};

use guest_base::{Bytes, Items};
use hex::FromHexError;
use std::alloc::{AllocError, Global};

/// The most digits: two for each of 262,144 bytes.
const MAX_HEX_DIGITS: usize = 524_288;

/// The bytes that a word spells: 2 to 524,288 hexadecimal digits of either case, an even number of them.
/// `Ok(None)` exactly where the word isn't so; an error is being out of memory.
pub fn read_hex(alloc: Global, word: &[u8]) -> Result<Option<Bytes>, AllocError>
    ensures { IfOk result (λ bytes. bytes ≡ hex_of word.now) }
{
    if word.is_empty() || word.len() > MAX_HEX_DIGITS {
        return Ok(None);
    }
    match hex::decode(alloc, word) {
        Ok(bytes) => Ok(Some(Items::from_vec(bytes))),
        Err(FromHexError::OutOfMemory) => Err(AllocError),
        Err(_) => Ok(None),
    }
}
