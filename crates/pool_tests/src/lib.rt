//! Tests of `io_areas` and `held_blocks`: the steps of an area of the pool, and the blocks and mappings of a processor.
#![tactic(auto)]

#[cfg(test)]
mod areas;
#[cfg(test)]
mod holdings;
