//! Laws over the definitions of histories about the bounce-buffer pool: live mappings have slots of their own, and a mapping is
//! refused as full only where nothing fits.
#![tactic(auto)]

mod histories;

pub use histories::{full_only_where_full, mappings_are_disjoint};
