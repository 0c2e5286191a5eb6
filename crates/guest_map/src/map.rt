//! A guest's memory as its firmware and its host tell it.
ghost use Rattle.std.specs.Prelude.{◌≡◌, ◌+◌, ◌*◌, ◌^◌, ◌<◌, ◌≤◌, ◌∷◌, [], IfOk};
ghost use Rattle.guest_base.specs.declared.limits.TheConstants.{PAGE_BYTES, PAGE_END, MAX_RAM_PAGES};
ghost use Rattle.event_core.specs.Map.{is_ram as names_ram, MapRules};

use event_core::{Descriptor, Descriptors, Hosts};
use guest_base::Pages;
use guest_base::limits::PAGE_BYTES;
use std::alloc::{AllocError, Global};

/// The memory descriptors of a guest, and what its host has mapped.
#[derive(Debug, Drop)]
pub struct GuestMap {
    /// The descriptors that have pages, in the order of the file.
    pub descriptors: Descriptors,
    /// The host's records, in the order of the file.
    pub hosts: Hosts,
}

/// Whether a descriptor is RAM: loader code and data, boot services code and data, conventional or unaccepted memory.
pub fn is_ram(d: Descriptor) -> bool
    ensures { result ≡ names_ram d }
{
    matches!(d.kind, 1..=4 | 7 | 15)
}

impl GuestMap {
    /// The map of a guest all of whose memory is these pages, unaccepted, and whose host has mapped nothing.
    pub fn unaccepted(alloc: Global, pages: Pages) -> Result<GuestMap, AllocError>
        requires some { 0 < pages.count }
        requires end { pages.first + pages.count ≤ PAGE_END }
        requires few { pages.count ≤ MAX_RAM_PAGES }
        ensures rules { IfOk result (λ map. MapRules map.descriptors map.hosts) }
        ensures hosts { IfOk result (λ map. map.hosts ≡ []) }
        ensures descriptors { IfOk result (λ map. map.descriptors ≡
            record { kind = 15; start = PAGE_BYTES * pages.first; pages = pages.count } ∷ []) }
    {
        let mut descriptors = Descriptors::new(alloc);
        descriptors.try_push(Descriptor {
            kind: 15,
            start: pages.first * PAGE_BYTES,
            pages: pages.count,
        })?;
        let hosts = Hosts::new(alloc);
        Ok(GuestMap { descriptors, hosts })
    }
}
