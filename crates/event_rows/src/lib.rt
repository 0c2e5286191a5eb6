//! Histories written out, on which the definitions of what may happen are tried: each law says of a history that it is whole, or
//! that it isn't.
#![tactic(auto)]

mod accepts;
mod areas;
mod blocks;
mod booted;
mod bounces;
mod conversions;
mod giving;
mod meanwhile;
mod processors;
mod small_units;
mod steps;
mod straying;
mod tables;
mod told;
mod touches;
mod turns;
mod waiting;

pub use accepts::{
    page_accepted_is_printed, page_accepted_is_whole, page_accepted_singly_is_not,
    page_accepted_small_is_not, page_miscounted_is_not, page_unreported_is_not,
    unit_accepted_is_whole, unit_accepted_small_is_not, unit_miscounted_is_not,
    unit_unguarded_is_not, unit_unreported_is_not,
};
pub use areas::{
    areas_are_full, areas_filled_is_whole, full_after_one_look_is_not, full_unanswered_is_not,
    full_withheld_is_not, run_missed_is_not,
};
pub use blocks::{block_got_is_whole, block_misread_is_not};
pub use booted::{boot_is_stopped, pool_guest_is_booted, small_guest_is_booted};
pub use bounces::{block_bounced_is_whole, block_miscopied_is_not, device_misread_is_not};
pub use conversions::{block_converted_is_whole, bytes_kept_is_not, half_block_found_is_not};
pub use giving::{
    bits_left_is_not, giveback_ends_by_its_call, giveback_is_admitted, giveback_is_refused,
    given_block_is_accepted_once, given_block_is_not_owned, given_block_is_whole,
    given_twice_is_not,
};
pub use meanwhile::{
    claim_goes_by_its_bits, given_meanwhile_is_whole, given_meanwhile_taken_is_not,
};
pub use processors::{
    both_accept_is_printed, both_accept_is_whole, claim_too_early_is_not, first_miscounted_is_not,
    second_miscounted_is_not,
};
pub use small_units::{
    guard_is_one_page, small_unit_accepted_is_whole, small_unit_miscounted_is_not,
    table_tells_first_states,
};
pub use steps::blocked_whatever_is_answered;
pub use straying::{
    accepted_page_is_there, given_page_found_is_not, given_page_is_absent, given_page_is_whole,
};
pub use tables::{
    giving_guest_is_booted, meanwhile_guest_is_booted, small_table_fits,
    small_unit_guest_is_booted, unit_outside_is_bad,
};
pub use told::{
    block_bytes_are_told, bounced_bytes_are_told, bytes_mistold_is_not, device_mistold_is_not,
};
pub use touches::{
    bounces_are_disjoint, bounces_touch_the_block, conversions_are_untouched,
    conversions_touch_private_pages,
};
pub use turns::{
    both_accept_is_turned, both_accept_is_turned_by_rounds, second_first_is_not,
    turned_to_nothing_is_not,
};
pub use waiting::{page_got_at_once_is_not, waiting_block_is_whole};
