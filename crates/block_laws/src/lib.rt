//! Laws over the definitions of histories: of those whose commands convert no block between private and shared and give none back,
//! and some of all.
#![tactic(auto)]

mod guarded;
mod histories;

pub use guarded::{
    free_pages_are_clear, held_blocks_are_apart, held_blocks_are_guarded, memory_stands,
    page_behind_is_found,
};
pub use histories::{
    block_calls_are_sound, block_pages_are_untouched, bytes_are_told, claims_are_apart,
    mapped_blocks_are_held,
};
