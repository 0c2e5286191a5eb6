//! The steps of a processor: what a run by turns and a run on threads have to know of it, and why its entries and those of the
//! locks of the memory and of the areas are one history.

#![tactic(auto)]

mod laws;
mod processor;

pub use laws::{
    area_steps_take_place_there, beginning_stands, blocked_waits_for_another, entries_go_on_rising,
    finished_is_replied, needed_area_is_there, others_leave_standing, own_steps_need_no_memory,
    room_leaves_all_together, stamps_stay_small, standing_lists_agree,
    standing_lists_have_a_history, step_leaves_all_together,
};
pub use processor::{Need, Processor, Stepped};
