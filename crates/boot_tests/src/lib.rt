//! Tests of `guest_boot`: where the pool stands, how RAM is cut into blocks, and what boot makes of maps and tables.
#![tactic(auto)]

#[cfg(test)]
mod cuts;
#[cfg(test)]
mod places;
#[cfg(test)]
mod worlds;
