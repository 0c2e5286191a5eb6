//! Writing a map file.
ghost use Rattle.std.specs.Prelude.{◌≡◌, ◌++◌, Ok, IfOk, OnOk};
ghost use Rattle.efi_map.specs.Spelling.{descriptor_bytes, level_number, host_bytes, header_bytes, map_bytes, HasFile};
ghost use Rattle.efi_map.specs.MapFile.{map_of};
ghost use Rattle.std.specs.List.{flat_map};

use crate::fields::MAGIC;
use event_core::Descriptor;
use guest_base::limits::PAGE_BYTES;
use guest_base::{Bytes, HostRun, Level};
use guest_map::{GuestMap, put_long, put_word};
use std::alloc::{AllocError, Global};

#[tactic(auto, unfolding(crate::specs::Spelling::descriptor_bytes))]
fn put_descriptor(out: &mut Vec<u8>, d: Descriptor) -> Result<(), AllocError>
    ensures { OnOk result (out.new.items ≡ out.old.items ++ descriptor_bytes d) }
{
    put_word(out, u64::from(d.kind))?;
    put_word(out, 0)?;
    put_long(out, u128::from(d.start))?;
    put_long(out, 0)?;
    put_long(out, u128::from(d.pages))?;
    put_long(out, 0)
}

fn level_number(level: Level) -> u64
    ensures { result ≡ level_number level }
{
    match level {
        Level::Small => 0,
        Level::Large => 1,
        Level::Huge => 2,
    }
}

#[tactic(auto, unfolding(crate::specs::Spelling::host_bytes))]
fn put_host(out: &mut Vec<u8>, run: HostRun) -> Result<(), AllocError>
    ensures { OnOk result (out.new.items ≡ out.old.items ++ host_bytes run) }
{
    put_long(out, u128::from(run.pages.first) * u128::from(PAGE_BYTES))?;
    put_long(out, u128::from(run.pages.count) * u128::from(PAGE_BYTES))?;
    put_word(out, level_number(run.level))
}

#[tactic(auto, unfolding(crate::specs::Spelling::header_bytes))]
fn put_header(out: &mut Vec<u8>, count: u64) -> Result<(), AllocError>
    ensures { OnOk result (out.new.items ≡ out.old.items ++ header_bytes count) }
{
    put_word(out, u64::from(MAGIC))?;
    put_word(out, 40)?;
    put_word(out, 1)?;
    put_word(out, count)
}

fn put_descriptors(out: &mut Vec<u8>, descriptors: &[Descriptor]) -> Result<(), AllocError>
    ensures { OnOk result
        (out.new.items ≡ out.old.items ++ flat_map descriptor_bytes descriptors.now) }
{
    for d in descriptors {
        put_descriptor(out, *d)?;
    }
    Ok(())
}

fn put_hosts(out: &mut Vec<u8>, hosts: &[HostRun]) -> Result<(), AllocError>
    ensures { OnOk result (out.new.items ≡ out.old.items ++ flat_map host_bytes hosts.now) }
{
    for run in hosts {
        put_host(out, *run)?;
    }
    Ok(())
}

#[tactic(auto, unfolding(crate::specs::Spelling::map_bytes))]
fn bytes_of(alloc: Global, map: &GuestMap) -> Result<Bytes, AllocError>
    ensures { IfOk result (λ bytes. bytes ≡ map_bytes map.now) }
{
    let mut out = Vec::new(alloc);
    put_header(&mut out, map.descriptors.len())?;
    put_descriptors(&mut out, map.descriptors.as_slice())?;
    put_word(&mut out, map.hosts.len())?;
    put_hosts(&mut out, map.hosts.as_slice())?;
    Ok(Bytes::from_vec(out))
}

/// The file of a map, with descriptors of 40 bytes whose padding, virtual start and attribute are 0. Read again, it
/// gives the map, where this meets the rules of maps and has at most 4,096 descriptors and 4,096 host records.
pub fn write_map(alloc: Global, map: &GuestMap) -> Result<Bytes, AllocError>
    ensures written { IfOk result (λ bytes. bytes ≡ map_bytes map.now) }
    ensures again { HasFile map.now → IfOk result (λ bytes. map_of bytes ≡ Ok map.now) }
{
    bytes_of(alloc, map)
}
