//! The boots of guests on which the histories are tried.
ghost use Rattle.std.specs.Prelude.{[], None, Some};
ghost use Rattle.event_core.specs.Boot.{BootRight, BootCalls};
ghost use Rattle.event_rows.specs.Accepts.{small_guest};
ghost use Rattle.event_rows.specs.Bounces.{pool_guest};
ghost use Rattle.event_rows.specs.BootMaps.{pool_map, small_pages_map, stopped_guest, stopped_calls};
ghost use Rattle.event_rows.specs.SmallMap.{small_map};

/// The small guest, of 12 MiB, is what boot makes of its map with no host record, no slots, one area and one processor; no call
/// is made.
pub fn small_guest_is_booted()
    ensures { BootRight small_map [] None 0 1 1 small_guest }
{}

/// The guest with a pool is what boot makes of its map with 128 slots in one area: the pool is shared by one call, and nothing
/// is accepted.
pub fn pool_guest_is_booted()
    ensures { BootRight pool_map [] None 128 1 1 pool_guest }
{}

/// Where the host maps the pool's first unit by small pages and the module fails at its second page, boot stops there: the large
/// size is wrong, the first page is accepted, and the second one fails.
pub fn boot_is_stopped()
    ensures { BootCalls small_pages_map None stopped_guest stopped_calls
        (Some (record { 0 = 1025 })) }
{}
