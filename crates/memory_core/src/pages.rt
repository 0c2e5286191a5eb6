//! Pages of units.
ghost use Rattle.std.specs.Prelude.{◌≡◌, ℕ, ◌+◌, ◌*◌, ◌^◌, ◌<◌, ◌≤◌, true, None, Some};
ghost use Rattle.guest_base.specs.Ranges.{in_range};
ghost use Rattle.guest_base.specs.Search.{any_such};
ghost use Rattle.event_core.specs.Units.{unit_count, bit_of};
ghost use Rattle.accept_sizes.specs.Accepts.{pending_of};
ghost use Rattle.accept_sizes.specs.Ends.{stopped_at};
ghost use Rattle.memory_core.specs.Bitmaps.{bits_in, unit_pages_of, unit_first_of, cleared_count, ClearedBy, PagesOf, ClearedIn};

use accept_sizes::RunEnd;
use guest_base::{Page, Pages, Units};
use page_module::Span;
use unaccepted_bitmap::Bitmap;

/// The pages of units of a bitmap.
fn pages_of(bits: &Bitmap, units: Units) -> Pages
    requires { units.first + units.count ≤ unit_count bits.now.bits }
    ensures first { result.first ≡ unit_first_of bits.now units.first }
    ensures count { result.count ≡ units.count * unit_pages_of bits.now }
    ensures end { result.first + result.count < 2 ^ 40 }
{
    let size = bits.unit() / 4096;
    Pages {
        first: bits.base() / 4096 + units.first * size,
        count: units.count * size,
    }
}

/// The end of units of a bitmap, all of which lie far below 2^64.
fn end_of(bits: &Bitmap, units: Units) -> u64
    requires { units.first + units.count ≤ unit_count bits.now.bits }
    ensures { result ≡ units.first + units.count }
{
    let _ = bits.unit();
    units.first + units.count
}

/// The pages of a run of unaccepted units, of which there is one at least.
pub fn run_pages(bits: &Option<Bitmap>, run: Units) -> Pages
    requires some { 0 < run.count }
    requires set { (unit : ℕ) → in_range run.first run.count unit ≡ true
        → bits_in bits.now unit ≡ true }
    ensures { PagesOf bits.now run result }
{
    match bits {
        Some(bits) => pages_of(bits, run),
        None => unreachable!(),
    }
}

/// Whether one of these pages is pending in the span.
fn has_pending(span: &Span, first: u64, count: u64) -> bool
    ensures { result ≡ any_such (pending_of span.now) first count }
{
    match span.next_pending(Page(first)) {
        Some(run) => run.first - first < count,
        None => false,
    }
}

/// Clears the bits of the units in which no page of the span is pending, and tells how many.
fn clear_accepted(bits: &mut Bitmap, span: &Span, run: Units) -> u64
    requires { run.first + run.count ≤ unit_count bits.old.bits }
    ensures unit { bits.new.unit ≡ bits.old.unit }
    ensures base { bits.new.base ≡ bits.old.base }
    ensures cleared { ClearedBy bits.old bits.new (pending_of span.now) run.first run.count }
    ensures few { result ≤ run.count }
    ensures count { result ≡ cleared_count bits.old (pending_of span.now) run }
{
    let mut cleared = 0;
    for unit in run.first..end_of(bits, run) {
        let pages = pages_of(
            bits,
            Units {
                first: unit,
                count: 1,
            },
        );
        if !has_pending(span, pages.first, pages.count) {
            bits.clear(Units {
                first: unit,
                count: 1,
            });
            cleared += 1;
        }
    }
    cleared
}

/// Clears the bits of those units of a run of unaccepted ones in which no page of the span is pending, and tells how many (after
/// `accept_memory`, which clears the bits of the units that it accepted).
pub fn clear_run(bits: &mut Option<Bitmap>, span: &Span, run: Units) -> u64
    requires some { 0 < run.count }
    requires set { (unit : ℕ) → in_range run.first run.count unit ≡ true
        → bits_in bits.old unit ≡ true }
    ensures cleared { ClearedIn bits.old bits.new (pending_of span.now) run result }
    ensures few { result ≤ run.count }
{
    match bits {
        Some(bits) => clear_accepted(bits, span, run),
        None => unreachable!(),
    }
}

/// The page at which an acceptance stopped.
pub fn stopped_page(end: RunEnd) -> Option<Page>
    ensures { result ≡ stopped_at end }
{
    match end {
        RunEnd::Whole => None,
        RunEnd::Stopped(page) => Some(page),
    }
}
