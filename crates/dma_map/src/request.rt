//! What a mapping asks of an area.
ghost use Rattle.std.specs.Prelude.{◌≡◌, ◌<◌, ◌≤◌, ◌+◌, ◌-◌, ◌*◌, ◌/◌, ◌^◌, ◌==◌, true, false, IfOk, OnErr, bit_and, if◌then◌else◌};
ghost use Rattle.guest_base.specs.Requests.{request_of, too_long};

use guest_base::limits::{ADDRESS_END, PAGE_BYTES, SEGMENT_SLOTS, SLOT_BYTES};
use guest_base::{Align, Request};
use thiserror::Error;

/// A mapping that fits in no empty segment of 128 slots.
#[derive(Clone, Copy, Debug, PartialEq, Eq, Error)]
#[error("the mapping fits in no segment")]
pub struct TooLong;

/// What a mapping of `len` bytes from the address `addr` on, which ends at 2^40 at most, asks of an area, where it keeps the
/// bits of the address that `mask` names: its place in the first slot, in bytes, the slots, and where they may begin.
/// `TooLong` exactly where these slots, with the one before them in the page, are more than a segment. After Linux's swiotlb.
pub fn plan(addr: u64, len: u64, mask: u64) -> Result<Request, TooLong>
    requires some { 0 < len }
    requires inside { addr + len ≤ ADDRESS_END }
    ensures fits { IfOk result (λ r. too_long addr len mask ≡ false) }
    ensures request { IfOk result (λ r. r ≡ request_of addr len mask) }
    ensures too_long { OnErr result (too_long addr len mask ≡ true) }
    ensures some { IfOk result (λ r. 0 < r.need) }
    ensures few { IfOk result (λ r. r.need ≤ SEGMENT_SLOTS) }
    ensures holds { IfOk result (λ r. r.offset + r.len ≤ SLOT_BYTES * r.need) }
{
    let kept = addr & mask;
    let offset = kept & (SLOT_BYTES - 1);
    let need = (offset + len).div_ceil(SLOT_BYTES);
    let lead = if kept & SLOT_BYTES == 0 { 0 } else { 1 };
    if lead + need > u64::from(SEGMENT_SLOTS) {
        return Err(TooLong);
    }
    let align = if lead == 1 {
        Align::Odd
    } else if mask == PAGE_BYTES - 1 || (mask == 0 && len >= PAGE_BYTES) {
        Align::Even
    } else {
        Align::Any
    };
    Ok(Request {
        need: need as u32,
        align,
        offset: offset as u32,
        len: len as u32,
    })
}

#[cfg(test)]
mod tests {
    use super::*;

    #[test]
    fn plans(rt: HostRuntime) {
        let request = |need, align, offset, len| {
            Ok(Request {
                need,
                align,
                offset,
                len,
            })
        };
        assert_eq!(rt; plan(0x140000, 1, 0), request(1, Align::Any, 0, 1));
        assert_eq!(rt; plan(0x140000, 4096, 0), request(2, Align::Even, 0, 4096));
        assert_eq!(rt; plan(0x140fff, 1, 4095), request(1, Align::Odd, 2047, 1));
        assert_eq!(rt; plan(0x140fff, 2, 4095), request(2, Align::Odd, 2047, 2));
        assert_eq!(rt;
            plan(0x140000, 262_144, 4095),
            request(128, Align::Even, 0, 262_144)
        );
        assert_eq!(rt; plan(0x140800, 262_144, 4095), Err(TooLong));
        assert_eq!(rt;
            plan(0x140800, 260_096, 4095),
            request(127, Align::Odd, 0, 260_096)
        );
        assert_eq!(rt; plan(0x140000, 262_145, 0), Err(TooLong));
    }
}
