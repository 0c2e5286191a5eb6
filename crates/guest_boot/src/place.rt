//! The place of the pool, and its areas.
ghost use Rattle.std.specs.Prelude.{◌≡◌, ◌≢◌, ◌≤◌, ◌/◌, ◌<◌, ℕ, None, Some, All, IfErr, IfOk, IfSome, OnErr, length, slice_get};
ghost use Rattle.guest_base.specs.declared.limits.TheConstants.{PAGE_END};
ghost use Rattle.guest_base.specs.Requests.{raised_slots};
ghost use Rattle.event_core.specs.Cut.{pages_end};
ghost use Rattle.io_areas.specs.Value.{AreaValue};
ghost use Rattle.guest_boot.specs.Placing.{IsParted, LayoutIn, MayAsk, areas_in, place_in, pool_in, share_in, slots_in};
ghost use Rattle.guest_boot.specs.Areas.{IsFirstArea};

use crate::fault::BootFault;
use dma_map::Layout;
use guest_base::Pages;
use io_areas::Area;
use std::alloc::{AllocError, Global};

/// The pool for which `slots` were asked, in this many areas: it stands in the first of these ranges that has room for it. None where
/// no slot was asked for. `PoolNoRoom` exactly where no range has room.
pub(crate) fn lay_out(ranges: &[Pages], slots: u32, areas: u32) -> Result<Option<Layout>, BootFault>
    requires asked { MayAsk slots areas }
    requires low { All (λ range. pages_end range ≤ PAGE_END) ranges.now }
    ensures layout { IfOk result (LayoutIn ranges.now slots areas) }
    ensures parted { IfOk result (λ layout. IfSome layout IsParted) }
    ensures low { IfOk result (λ layout.
        IfSome (pool_in layout) (λ pool. pages_end pool ≤ PAGE_END)) }
    ensures cause { IfErr result (λ fault. fault ≡ BootFault.PoolNoRoom) }
    ensures asked { OnErr result (slots ≢ 0) }
    ensures nowhere { OnErr result (place_in (raised_slots slots areas / 2) ranges.now ≡ None) }
{
    if slots == 0 {
        return Ok(None);
    }
    let raised = Layout::raise(slots, areas);
    match place_in(ranges, u64::from(raised / 2)) {
        Some(pool) => Ok(Some(Layout {
            pool,
            slots: raised,
            areas,
        })),
        None => Err(BootFault::PoolNoRoom),
    }
}

/// The first pages of the first range that has this many. None exactly where no range has them.
pub fn place_in(ranges: &[Pages], size: u64) -> Option<Pages>
    ensures { result ≡ place_in size ranges.now }
{
    for range in ranges {
        if size <= range.count {
            return Some(Pages {
                first: range.first,
                count: size,
            });
        }
    }
    None
}

/// The slots of a pool, 0 where there is none.
pub(crate) fn slots_in(layout: Option<Layout>) -> u32
    ensures { result ≡ slots_in layout }
{
    match layout {
        Some(layout) => layout.slots,
        None => 0,
    }
}

/// The pages of a pool.
pub(crate) fn pool_in(layout: Option<Layout>) -> Option<Pages>
    ensures { result ≡ pool_in layout }
{
    match layout {
        Some(layout) => Some(layout.pool),
        None => None,
    }
}

/// The areas of a pool before the first entry, each with its share of the slots; none where there is no pool.
pub(crate) fn first_areas(alloc: Global, layout: Option<Layout>) -> Result<Vec<Area>, AllocError>
    requires { IfSome layout IsParted }
    ensures count { IfOk result (λ areas. length areas.items ≡ areas_in layout) }
    ensures each { IfOk result (λ areas. (number : ℕ) (area : AreaValue)
        → slice_get areas.items number ≡ Some area → IsFirstArea (share_in layout) number area) }
{
    match layout {
        Some(layout) => areas_of(alloc, layout),
        None => Ok(Vec::new(alloc)),
    }
}

/// The areas of a pool before the first entry, each with its share of the slots.
fn areas_of(alloc: Global, layout: Layout) -> Result<Vec<Area>, AllocError>
    requires { IsParted layout }
    ensures count { IfOk result (λ areas. length areas.items ≡ layout.areas) }
    ensures each { IfOk result (λ areas. (number : ℕ) (area : AreaValue)
        → slice_get areas.items number ≡ Some area
        → IsFirstArea (layout.slots / layout.areas) number area) }
{
    let share = layout.slots / layout.areas;
    let mut areas = Vec::new(alloc);
    for number in 0..layout.areas {
        let area = Area::new(alloc, number, share)?;
        areas.push(area)?;
    }
    Ok(areas)
}
