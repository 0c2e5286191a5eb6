//! Pages, units, blocks and their states.
ghost use Rattle.std.specs.Prelude.{◌≡◌, ◌≢◌, ℕ, ◌+◌, ◌*◌, ◌^◌, ◌<◌, ◌≤◌, ◌↔◌, ◌⊎◌, IsTrue, IfSome, IfNone};
ghost use Rattle.guest_base.specs.Ranges.{in_range, RangesMeet, IsRange, IsNoRange};
ghost use Rattle.guest_base.specs.declared.limits.TheConstants.{PAGE_END};
ghost use Rattle.guest_base.specs.Levels.{level_pages};

use crate::limits::PAGE_END;

/// A page's number: its first byte stands at 4,096 times this number.
#[derive(Clone, Copy, Debug, PartialEq, Eq, PartialOrd, Ord)]
pub struct Page(pub u64);

/// A unit's number, counted from the bitmap's base.
#[derive(Clone, Copy, Debug, PartialEq, Eq, PartialOrd, Ord)]
pub struct Unit(pub u64);

/// A processor's number, below 64.
#[derive(Clone, Copy, Debug, PartialEq, Eq, PartialOrd, Ord)]
pub struct CpuNo(pub u32);

/// The pages from `first` on, `count` of them.
#[derive(Clone, Copy, Debug, PartialEq, Eq)]
pub struct Pages {
    pub first: u64,
    pub count: u64,
}

/// The units from `first` on, `count` of them.
#[derive(Clone, Copy, Debug, PartialEq, Eq)]
pub struct Units {
    pub first: u64,
    pub count: u64,
}

/// The size of one acceptance, and what the host has mapped: 4 KiB, 2 MiB or 1 GiB.
#[derive(Clone, Copy, Debug, PartialEq, Eq)]
pub enum Level {
    Small,
    Large,
    Huge,
}

/// The state of a page of RAM.
#[derive(Clone, Copy, Debug, PartialEq, Eq)]
pub enum PageState {
    /// Not accepted: a touch stops the guest.
    Pending,
    /// Private to the guest.
    Accepted,
    /// Open to the host and its devices.
    Shared,
}

/// Pages of one state.
#[derive(Clone, Copy, Debug, PartialEq, Eq)]
pub struct PageRun {
    pub pages: Pages,
    pub state: PageState,
}

/// Pages that the host has mapped at one level.
#[derive(Clone, Copy, Debug, PartialEq, Eq)]
pub struct HostRun {
    pub pages: Pages,
    pub level: Level,
}

/// A block of 2^`order` pages from the page `first` on.
#[derive(Clone, Copy, Debug, PartialEq, Eq)]
pub struct Block {
    pub first: u64,
    pub order: u32,
}

impl Pages {
    /// The `count` pages from `first` on. None exactly where `count` is 0, or they end above 2^28.
    pub fn new(first: u64, count: u64) -> Option<Pages>
        ensures some { IfSome result (λ p.
            (p ≡ record { first = first; count = count }) × IsRange first count) }
        ensures none { IfNone result (IsNoRange first count) }
    {
        if is_range(first, count) {
            Some(Pages { first, count })
        } else {
            None
        }
    }

    /// Whether the page is one of these.
    pub fn holds(self, page: Page) -> bool
        ensures { result ≡ in_range self.first self.count page.0 }
    {
        page.0 >= self.first && page.0 - self.first < self.count
    }

    /// Whether the two have a page in common.
    pub fn meets(self, other: Pages) -> bool
        ensures { IsTrue result ↔ RangesMeet self.first self.count other.first other.count }
    {
        ranges_meet(self.first, self.count, other.first, other.count)
    }
}

impl Units {
    /// The `count` units from `first` on. None exactly where `count` is 0, or they end above 2^28.
    pub fn new(first: u64, count: u64) -> Option<Units>
        ensures some { IfSome result (λ u.
            (u ≡ record { first = first; count = count }) × IsRange first count) }
        ensures none { IfNone result (IsNoRange first count) }
    {
        if is_range(first, count) {
            Some(Units { first, count })
        } else {
            None
        }
    }

    /// Whether the two have a unit in common.
    pub fn meets(self, other: Units) -> bool
        ensures { IsTrue result ↔ RangesMeet self.first self.count other.first other.count }
    {
        ranges_meet(self.first, self.count, other.first, other.count)
    }
}

impl Level {
    /// The pages of one call of this level: 1, 512 or 262,144.
    pub fn pages(self) -> u64
        ensures { result ≡ level_pages self }
    {
        match self {
            Level::Small => 1,
            Level::Large => 512,
            Level::Huge => 262_144,
        }
    }
}

impl Block {
    /// The block's pages.
    pub fn pages(self) -> Pages
        requires order { self.order ≤ 10 }
        requires end { self.first + 2 ^ self.order ≤ PAGE_END }
        ensures { result ≡ record { first = self.first; count = 2 ^ self.order } }
    {
        Pages {
            first: self.first,
            count: 1 << self.order,
        }
    }
}

/// Whether there are any of the `count` numbers from `first` on, and none ends above 2^28.
fn is_range(first: u64, count: u64) -> bool
    ensures { IsTrue result ↔ IsRange first count }
{
    count > 0 && first <= PAGE_END && count <= PAGE_END - first
}

/// Whether two ranges have a number in common; their ends may lie above every `u64`.
fn ranges_meet(first: u64, count: u64, other_first: u64, other_count: u64) -> bool
    ensures { IsTrue result ↔ RangesMeet first count other_first other_count }
{
    let (first, other_first) = (u128::from(first), u128::from(other_first));
    let start = first.max(other_first);
    start < first + u128::from(count) && start < other_first + u128::from(other_count)
}
