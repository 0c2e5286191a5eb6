//! Tests of `efi_map` and `unaccepted_bitmap`: map files and their RAM, and bitmaps and tables of unaccepted units.
#![tactic(auto)]

#[cfg(test)]
mod bitmaps;
#[cfg(test)]
mod maps;
