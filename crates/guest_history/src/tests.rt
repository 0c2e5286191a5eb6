ghost use Rattle.std.specs.Prelude.{◌≡◌, All, IfOk};
ghost use Rattle.event_core.specs.Locally.{Rising};

use crate::{gather, order_of};
use event_core::{Boot, Entries, Entry, Event, Place, Recorded};
use guest_base::{CpuNo, Items};
use std::alloc::{AllocError, Global};
use std::test::Fail;

/// A boot of three processors, without memory.
fn boot(alloc: Global) -> Boot {
    Boot {
        ram: Items::new(alloc),
        hosts: Items::new(alloc),
        base: 0,
        unit: 2_097_152,
        bits: Items::new(alloc),
        cpus: 3,
        slots: 0,
        areas: 1,
        pool: None,
        calls: Items::new(alloc),
    }
}

/// The list of one processor's one entry.
fn made_at(alloc: Global, stamp: u128, cpu: u32) -> Result<Entries, AllocError>
    ensures named { IfOk result (λ list. All (λ e. e.cpu.0 ≡ cpu) list) }
    ensures rises { IfOk result (λ list. Rising list) }
{
    let entry = Entry {
        stamp,
        cpu: CpuNo(cpu),
        cmd: 0,
        place: Place::Own,
        event: Event::Own,
        reply: None,
    };
    Ok(Items::from_vec(vec![in alloc; entry]?))
}

/// Three processors made an entry each, the first one the last; the second and the third at one stamp.
fn three(alloc: Global) -> Result<Recorded, AllocError> {
    let (first, second, third) = (
        made_at(alloc, 2, 0)?,
        made_at(alloc, 1, 1)?,
        made_at(alloc, 1, 2)?,
    );
    let lists = vec![in alloc; first, second, third]?;
    gather(
        alloc,
        boot(alloc),
        Items::new(alloc),
        Items::from_vec(lists),
    )
}

#[test]
fn entries_rise(rt: HostRuntime) -> Result<(), Fail> {
    let run = three(rt.alloc())?;
    let [first, second, third] = run.entries.as_slice() else {
        return Err(Fail::from("three entries"));
    };
    assert_eq!(rt; (first.stamp, first.cpu), (1, CpuNo(1)));
    assert_eq!(rt; (second.stamp, second.cpu), (1, CpuNo(2)));
    assert_eq!(rt; (third.stamp, third.cpu), (2, CpuNo(0)));
    assert_eq!(rt; run.boot.cpus, 3);
    assert!(rt; run.scripts.is_empty());
    Ok(())
}

#[test]
fn turns_in_order(rt: HostRuntime) -> Result<(), Fail> {
    let run = three(rt.alloc())?;
    let order = order_of(rt.alloc(), &run)?;
    assert_eq!(rt; order.as_slice(), [CpuNo(1), CpuNo(2), CpuNo(0)].as_slice());
    Ok(())
}
