//! The place and the size of the bounce-buffer pool.
ghost use Rattle.std.specs.Prelude.{◌≡◌, ◌+◌, ◌*◌, ◌/◌, ◌<◌, ◌≤◌, Some, None, IfSome, IfNone};
ghost use Rattle.std.specs.Int.{IsPowerOfTwo};
ghost use Rattle.guest_base.specs.Requests.{raised_slots};
ghost use Rattle.event_core.specs.declared.boot.Boot.{Boot as BootValue};
ghost use Rattle.event_core.specs.declared.reply.Reply.TheVariants.{Range};
ghost use Rattle.event_core.specs.AreaRows.{area_looked_in};
ghost use Rattle.event_core.specs.Pool.{area_of_offset, device_address};
ghost use Rattle.event_core.specs.Refusals.{pool_refusal};

use event_core::Boot;
use guest_base::limits::{MAX_AREAS, MAX_SLOTS, PAGE_BYTES, SEGMENT_SLOTS, SLOT_BYTES};
use guest_base::{CpuNo, Pages, SlotRun};

/// A pool: its pages, its slots, and the areas that they are parted into evenly and in order.
#[derive(Clone, Copy, Debug, PartialEq, Eq)]
pub struct Layout {
    pub pool: Pages,
    pub slots: u32,
    pub areas: u32,
}

impl Layout {
    ghost use Rattle.dma_map.specs.Pools.{HasLayout, IsLayout, LiesIn, layout_in};

    /// The layout of the pool of a boot. None exactly where it has none.
    pub fn of_boot(boot: &Boot) -> Option<Layout>
        ensures { result ≡ layout_in boot.now }
    {
        match boot.pool {
            Some(pool) => Some(Layout {
                pool,
                slots: boot.slots,
                areas: boot.areas,
            }),
            None => None,
        }
    }

    /// The slots of a pool of `areas` areas, 1 to 64 and a power of two, for which `slots` were asked, at most 131,072: one
    /// segment for each area where fewer were asked, and else the next power of two, after Linux's swiotlb.
    pub fn raise(slots: u32, areas: u32) -> u32
        requires slots { slots ≤ MAX_SLOTS }
        requires areas { areas ≤ MAX_AREAS }
        requires power { IsPowerOfTwo areas }
        ensures raised { result ≡ raised_slots slots areas }
        ensures limit { result ≤ MAX_SLOTS }
        ensures power { IsPowerOfTwo result }
    {
        let least = areas * SEGMENT_SLOTS;
        if slots < least {
            least
        } else {
            slots.next_power_of_two()
        }
    }

    /// The slots of each area.
    pub fn area_slots(self) -> u32
        requires { IsLayout self }
        ensures { result ≡ self.slots / self.areas }
    {
        self.slots / self.areas
    }

    /// The area in which the `len` bytes from the pool's byte `off` on lie, counted from 0. None exactly where they pass the
    /// pool's end or don't lie in one area, and for no bytes where `off` is the first byte of a later area.
    pub fn area_of(self, off: u64, len: u64) -> Option<u32>
        requires { IsLayout self }
        ensures area { IfSome result (λ area. (boot : BootValue) → HasLayout boot self
            → (pool_refusal boot off len ≡ None) × (area ≡ area_of_offset boot off)) }
        ensures inside { IfSome result (λ area. LiesIn self area off len) }
        ensures none { IfNone result ((boot : BootValue) → HasLayout boot self
            → pool_refusal boot off len ≡ Some Range) }
    {
        let end = u128::from(off) + u128::from(len);
        if end > u128::from(SLOT_BYTES) * u128::from(self.slots) {
            return None;
        }
        let end = end as u64;
        let size = SLOT_BYTES * u64::from(self.area_slots());
        let area = off / size;
        if area != end.saturating_sub(1) / size {
            return None;
        }
        Some(area as u32)
    }

    /// The area of a processor's next look, after `looks` looks for the same mapping that found nothing: its own one first, and
    /// then each next one, once round.
    pub fn area_to_look(self, cpu: CpuNo, looks: u32) -> u32
        requires layout { IsLayout self }
        requires few { looks < self.areas }
        ensures area { (boot : BootValue) → HasLayout boot self
            → result ≡ area_looked_in boot cpu.0 looks }
        ensures inside { result < self.areas }
    {
        (cpu.0 % self.areas + looks) % self.areas
    }

    /// The address of a run's first byte for the device, in bytes.
    pub fn device_address(self, run: SlotRun) -> u64
        requires { IsLayout self }
        ensures { (boot : BootValue) → HasLayout boot self → result ≡ device_address boot run }
    {
        let slot = u64::from(run.area) * u64::from(self.area_slots()) + u64::from(run.first);
        PAGE_BYTES * self.pool.first + (slot * SLOT_BYTES + u64::from(run.offset))
    }
}

#[cfg(test)]
mod tests {
    use super::*;

    /// A pool of four areas of 128 slots, from the page 256 on.
    const POOL: Layout = Layout {
        pool: Pages {
            first: 256,
            count: 256,
        },
        slots: 512,
        areas: 4,
    };

    #[test]
    fn areas_of_ranges(rt: HostRuntime) {
        assert_eq!(rt; POOL.area_of(0, 262_144), Some(0));
        assert_eq!(rt; POOL.area_of(262_143, 2), None);
        assert_eq!(rt; POOL.area_of(786_432, 262_144), Some(3));
        assert_eq!(rt; POOL.area_of(1_048_575, 2), None);
        assert_eq!(rt; POOL.area_of(u64::MAX, u64::MAX), None);
        assert_eq!(rt; POOL.area_to_look(CpuNo(6), 0), 2);
        assert_eq!(rt; POOL.area_to_look(CpuNo(6), 3), 1);
    }

    #[test]
    fn addresses_for_the_device(rt: HostRuntime) {
        let run = SlotRun {
            area: 2,
            first: 5,
            count: 2,
            offset: 12,
            len: 4000,
        };
        assert_eq!(rt; POOL.device_address(run), 1_048_576 + 261 * 2048 + 12);
    }

    #[test]
    fn raised_sizes(rt: HostRuntime) {
        assert_eq!(rt; Layout::raise(1, 1), 128);
        assert_eq!(rt; Layout::raise(128, 1), 128);
        assert_eq!(rt; Layout::raise(129, 1), 256);
        assert_eq!(rt; Layout::raise(300, 4), 512);
        assert_eq!(rt; Layout::raise(1000, 64), 8192);
        assert_eq!(rt; Layout::raise(131_072, 64), 131_072);
    }
}
