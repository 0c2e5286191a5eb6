//! Whether a table fits a map: each unit with a set bit lies in unaccepted memory.
ghost use Rattle.std.specs.Prelude.{◌≡◌, ◌+◌, ◌*◌, ◌/◌, ◌^◌, ◌<◌, ◌&&◌, ◌≤◌, not, is_some, find, Some, IfSome, IfOk, IfErr};
ghost use Rattle.guest_base.specs.declared.limits.TheConstants.{PAGE_BYTES};
ghost use Rattle.guest_base.specs.Search.{each_such};
ghost use Rattle.event_core.specs.Map.{is_unaccepted, holds_page, unaccepted_page};
ghost use Rattle.unaccepted_bitmap.specs.Fits.{AreUnaccepted, is_bad};

use crate::bitmap::Bitmap;
use crate::fault::BadBit;
use crate::stub::UNACCEPTED;
use event_core::Descriptor;
use guest_base::limits::PAGE_BYTES;
use guest_base::{Page, Pages};
use guest_map::GuestMap;

/// Whether a descriptor is unaccepted, and a page lies in it.
fn is_holder(d: Descriptor, page: u64) -> bool
    ensures { result ≡ (is_unaccepted d && holds_page page d) }
{
    let pages = Pages {
        first: d.start / PAGE_BYTES,
        count: d.pages,
    };
    d.kind == UNACCEPTED && pages.holds(Page(page))
}

/// The first unaccepted descriptor that holds a page.
fn holder(descriptors: &[Descriptor], page: u64) -> Option<Descriptor>
    ensures { result ≡ find (λ d. is_unaccepted d && holds_page page d) descriptors.now }
{
    descriptors.iter().copied().find(|d| is_holder(*d, page))
}

/// Unaccepted pages, a given one among them: the known ones, or those of a descriptor. None where the page isn't unaccepted.
fn around(descriptors: &[Descriptor], known: Pages, page: u64) -> Option<Pages>
    requires { AreUnaccepted descriptors.now known }
    ensures is { is_some result ≡ unaccepted_page descriptors.now page }
    ensures known { IfSome result (AreUnaccepted descriptors.now) }
{
    if known.holds(Page(page)) {
        return Some(known);
    }
    let d = holder(descriptors, page)?;
    Some(Pages {
        first: d.start / PAGE_BYTES,
        count: d.pages,
    })
}

/// Unaccepted pages, the last that was looked at among them; they are looked at first for the next page. None where one of the
/// pages isn't unaccepted.
fn around_each(descriptors: &[Descriptor], known: Pages, pages: Pages) -> Option<Pages>
    requires known { AreUnaccepted descriptors.now known }
    requires room { pages.first + pages.count < 2 ^ 64 }
    ensures is { is_some result ≡
        each_such (unaccepted_page descriptors.now) pages.first pages.count }
    ensures known { IfSome result (AreUnaccepted descriptors.now) }
{
    let mut known = known;
    let end = pages.first + pages.count;
    for page in pages.first..end {
        known = around(descriptors, known, page)?;
    }
    Some(known)
}

/// The pages of a unit.
fn pages_of(unit: u64, base: u64, number: u64) -> Pages
    requires { base + number * unit < 2 ^ 64 }
    ensures { result ≡
        record {
          first = base / PAGE_BYTES + number * (unit / PAGE_BYTES);
          count = unit / PAGE_BYTES;
        } }
{
    let count = unit / PAGE_BYTES;
    Pages {
        first: base / PAGE_BYTES + number * count,
        count,
    }
}

impl Bitmap {
    ghost use Rattle.event_core.specs.Map.{MapRules};
    ghost use Rattle.event_core.specs.Table.{FitsTable, bad_unit};
    ghost use Rattle.event_core.specs.Units.{unit_count};

    /// Unaccepted pages that are known after a unit was looked at. None where its bit is set, and it doesn't lie in unaccepted
    /// memory.
    fn after_unit(&self, descriptors: &[Descriptor], known: Pages, number: u64) -> Option<Pages>
        requires known { AreUnaccepted descriptors.now known }
        requires inside { number < unit_count self.now.bits }
        ensures is { is_some result ≡ not (is_bad descriptors.now self.now number) }
        ensures known { IfSome result (AreUnaccepted descriptors.now) }
    {
        if !self.has_bit(number) {
            return Some(known);
        }
        around_each(
            descriptors,
            known,
            pages_of(self.unit(), self.base(), number),
        )
    }

    /// The first unit whose bit is set, and which doesn't lie in unaccepted memory.
    fn bad_unit(&self, descriptors: &[Descriptor]) -> Option<u64>
        ensures { result ≡ bad_unit descriptors.now self.now }
    {
        let mut known = Pages { first: 0, count: 0 };
        for number in 0..self.unit_count() {
            let Some(next) = self.after_unit(descriptors, known, number) else {
                return Some(number);
            };
            known = next;
        }
        None
    }

    /// The bitmap, where it fits a map: each unit whose bit is set lies in unaccepted descriptors, of which several may hold it
    /// together. Else the first unit that doesn't.
    pub fn fit(self, map: &GuestMap) -> Result<Bitmap, BadBit>
        requires { MapRules map.now.descriptors map.now.hosts }
        ensures fits { IfOk result (λ b. (b ≡ self) × FitsTable map.now.descriptors self) }
        ensures bad { IfErr result (λ e. bad_unit map.now.descriptors self ≡ Some e.0) }
    {
        match self.bad_unit(map.descriptors.as_slice()) {
            Some(unit) => Err(BadBit(unit)),
            None => Ok(self),
        }
    }
}
