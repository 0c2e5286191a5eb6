//! Reading a map file.
ghost use Rattle.std.specs.Prelude.{◌≡◌, ◌≤◌, IfOk, filter, length};
ghost use Rattle.event_core.specs.Map.{MapRules};
ghost use Rattle.guest_base.specs.declared.limits.TheConstants.{MAX_DESCRIPTORS, MAX_HOSTS};
ghost use Rattle.efi_map.specs.MapFile.{Gives, has_pages, map_of};

use crate::descriptors::all_descriptors;
use crate::fault::MapFault;
use crate::hosts::all_hosts;
use event_core::{Descriptor, Descriptors, Hosts};
use guest_map::GuestMap;
use std::alloc::{AllocError, Global};

/// The descriptors that have pages.
fn kept(alloc: Global, found: Vec<Descriptor>) -> Result<Descriptors, AllocError>
    ensures { IfOk result (λ ds. ds ≡ filter has_pages found.items) }
{
    let kept = found
        .iter()
        .copied()
        .filter(|d| d.pages > 0)
        .collect(alloc)?;
    Ok(Descriptors::from_vec(kept))
}

#[tactic(auto, unfolding(crate::specs::MapFile::map_of))]
fn map(alloc: Global, bytes: &[u8]) -> Result<GuestMap, MapFault>
    ensures { Gives (λ map. map) result (map_of bytes.now) }
{
    let size = bytes.len() as u64;
    let (found, rest) = all_descriptors(alloc, size, bytes)?;
    let (runs, rest) = all_hosts(alloc, size, rest)?;
    if !rest.is_empty() {
        return Err(MapFault::Trailing(size.saturating_sub(rest.len() as u64)));
    }
    Ok(GuestMap {
        descriptors: kept(alloc, found)?,
        hosts: Hosts::from_vec(runs),
    })
}

/// The map that a file holds, or the first refusal in the order of its bytes (`MapFault` tells each).
pub fn read_map(alloc: Global, bytes: &[u8]) -> Result<GuestMap, MapFault>
    // It is the map of these bytes, or their first refusal, unless memory ran out.
    ensures exact { Gives (λ map. map) result (map_of bytes.now) }
    // A map that was read meets the rules of maps.
    ensures rules { IfOk result (λ map. MapRules map.descriptors map.hosts) }
    // It has at most 4,096 descriptors and as many host records, so that what `write_map` makes
    // of it is read again as it.
    ensures few { IfOk result (λ map.
        (length map.descriptors ≤ MAX_DESCRIPTORS) × (length map.hosts ≤ MAX_HOSTS)) }
{
    map(alloc, bytes)
}
