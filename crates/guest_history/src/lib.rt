//! One history of the lists that several processors and locks have kept.
#![tactic(auto)]

mod laws;
mod merging;
#[cfg(test)]
mod tests;

pub use laws::{
    agreeing_lists_have_a_history, each_following_is_legal, legal_follows_where_made,
    rising_by_processor_is_one,
};
pub use merging::{gather, order_of};
