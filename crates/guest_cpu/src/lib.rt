//! A processor of the guest: its script, its port to the secure module, and its steps over the memory and the areas of the pool.

#![tactic(auto)]

mod access;
mod alone;
mod answers;
mod area_step;
mod areas;
mod blocks;
mod cpu;
mod made;
mod progress;
mod room;
mod runs;
mod steps;
mod wanted;
mod work;

pub use cpu::Cpu;
