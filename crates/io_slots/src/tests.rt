//! The search is compared with one that tries each place slot by slot.
ghost use Rattle.std.specs.Prelude.{◌≡◌, ◌<◌, ◌≤◌, ◌+◌, ℕ, true, IfSome};
ghost use Rattle.guest_base.specs.Ranges.{InRange};
ghost use Rattle.guest_base.specs.Slots.{InOneSegment};
ghost use Rattle.io_slots.specs.SlotUse.{slot_count, is_used};

use crate::Slots;
use guest_base::Align;
use std::test::Fail;

/// Takes the run that the search finds.
fn take_fitting(slots: &mut Slots, need: u32, align: Align) -> Option<u32>
    requires some { 0 < need }
    requires few { need ≤ 128 }
    ensures inside { IfSome result (λ at. at + need ≤ slot_count slots.new) }
    ensures segment { IfSome result (λ at. InOneSegment at need) }
    ensures used { IfSome result (λ at. (k : ℕ)
        → InRange at need k → is_used slots.new k ≡ true) }
{
    let at = slots.fits(need, align)?;
    slots.take(at, need);
    Some(at)
}

/// Keeps the flags of a run.
fn mark(used: &mut [bool], at: u32, need: u32, to: bool) {
    for flag in used.iter_mut().skip(at as usize).take(need as usize) {
        *flag = to;
    }
}

/// Whether a run fits, slot by slot.
fn fits_slowly(used: &[bool], at: usize, need: usize, align: Align) -> bool {
    let meets = match align {
        Align::Any => true,
        Align::Even => at % 2 == 0,
        Align::Odd => at % 2 == 1,
    };
    let inside = need <= used.len() && at <= used.len() - need && need <= 128 - at % 128;
    meets && inside && used[at..at + need].iter().all(|u| !*u)
}

/// The first place that fits, tried one by one from the hint on.
fn search_slowly(used: &[bool], hint: u32, need: usize, align: Align) -> Option<u32> {
    for at in hint..256 {
        if fits_slowly(used, at as usize, need, align) {
            return Some(at);
        }
    }
    for at in 0..hint {
        if fits_slowly(used, at as usize, need, align) {
            return Some(at);
        }
    }
    None
}

/// Whether the search answers as the slow one for many runs that may be asked.
fn answers_alike(slots: &Slots, used: &[bool]) -> bool {
    for need in [1, 2, 3, 5, 60, 127, 128] {
        for align in [Align::Any, Align::Even, Align::Odd] {
            let slow = search_slowly(used, slots.hint(), need as usize, align);
            if slots.fits(need, align) != slow {
                return false;
            }
        }
    }
    true
}

#[test]
fn free_runs(rt: HostRuntime) -> Result<(), Fail> {
    let mut slots = Slots::new(rt.alloc(), 256)?;
    slots.take(0, 3);
    slots.take(5, 2);
    assert_eq!(rt; slots.free_run(3), 2);
    assert_eq!(rt; slots.free_run(7), 121);
    assert_eq!(rt; slots.free_run(0), 0);
    assert_eq!(rt; slots.free_run(128), 128);
    assert_eq!(rt; slots.used(), 5);
    slots.release(0, 3);
    assert_eq!(rt; slots.free_run(0), 5);
    assert_eq!(rt; slots.used(), 2);
    Ok(())
}

#[test]
fn search_as_the_slow_one(rt: HostRuntime) -> Result<(), Fail> {
    let mut slots = Slots::new(rt.alloc(), 256)?;
    let mut used = [false; 256];
    for round in 0..60u32 {
        let need = 1 + round * 11 % 37;
        let align = match round % 3 {
            0 => Align::Odd,
            1 => Align::Even,
            _ => Align::Any,
        };
        let Some(at) = take_fitting(&mut slots, need, align) else {
            continue;
        };
        mark(&mut used, at, need, true);
        assert!(rt; answers_alike(&slots, &used));
        if round % 4 != 0 {
            slots.release(at, need);
            mark(&mut used, at, need, false);
            assert!(rt; answers_alike(&slots, &used));
        }
    }
    Ok(())
}
