//! The numbers of a file's fields, little endian.
ghost use Rattle.std.specs.Prelude.{◌≡◌, ◌++◌, OnOk};
ghost use Rattle.guest_map.specs.Fields.{low_bytes};

use std::alloc::AllocError;

/// Adds the lowest 4 bytes of a number.
#[tactic(auto, unfolding(crate::specs::Fields::low_bytes))]
pub fn put_word(out: &mut Vec<u8>, number: u64) -> Result<(), AllocError>
    ensures { OnOk result (out.new.items ≡ out.old.items ++ low_bytes 4 number) }
{
    out.extend_from_slice(&number.to_le_bytes()[..4])
}

/// Adds the lowest 8 bytes of a number.
#[tactic(auto, unfolding(crate::specs::Fields::low_bytes))]
pub fn put_long(out: &mut Vec<u8>, number: u128) -> Result<(), AllocError>
    ensures { OnOk result (out.new.items ≡ out.old.items ++ low_bytes 8 number) }
{
    out.extend_from_slice(&number.to_le_bytes()[..8])
}
