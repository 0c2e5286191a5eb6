use crate::{Accepting, Claim};
use guest_base::{CpuNo, Units};

/// A claim of units alone.
#[derive(Drop)]
struct Claimed {
    units: Units,
}

impl Claim for Claimed {
    ghost units = { λ claimed. claimed.units };

    fn units(&self) -> Units {
        self.units
    }
}

/// Gives a processor a claim, unless it has one or the claim meets another's.
fn admit(accepting: &mut Accepting<Claimed>, cpu: u32, first: u64, count: u64) -> bool {
    let units = Units { first, count };
    let free = cpu < 64 && accepting.range(CpuNo(cpu)).is_none();
    let apart = accepting.overlaps(units).is_none();
    if free && apart {
        accepting.add(CpuNo(cpu), Claimed { units });
    }
    free && apart
}

/// Takes a processor's claim away, where it has one.
fn leave(accepting: &mut Accepting<Claimed>, cpu: u32) -> Option<Units> {
    if accepting.range(CpuNo(cpu)).is_none() {
        return None;
    }
    Some(accepting.remove(CpuNo(cpu)).units)
}

fn units(first: u64, count: u64) -> Option<Units> {
    Some(Units { first, count })
}

#[test]
fn admits_what_is_apart(rt: HostRuntime) {
    let mut accepting = Accepting::new();
    assert!(rt; admit(&mut accepting, 3, 4, 2));
    assert!(rt; !admit(&mut accepting, 0, 5, 1));
    assert!(rt; !admit(&mut accepting, 3, 0, 1));
    assert!(rt; admit(&mut accepting, 0, 6, 1));
    assert!(rt; admit(&mut accepting, 63, 0, 4));
    assert_eq!(rt; accepting.range(CpuNo(3)), units(4, 2));
    assert_eq!(rt; accepting.range(CpuNo(1)), None);
}

#[test]
fn tells_the_first_that_meets(rt: HostRuntime) {
    let mut accepting = Accepting::new();
    assert!(rt; admit(&mut accepting, 2, 0, 2));
    assert!(rt; admit(&mut accepting, 1, 4, 2));
    let wide = Units { first: 1, count: 8 };
    assert_eq!(rt; accepting.overlaps(wide), units(4, 2));
    assert_eq!(rt; leave(&mut accepting, 1), units(4, 2));
    assert_eq!(rt; accepting.overlaps(wide), units(0, 2));
    assert_eq!(rt; leave(&mut accepting, 1), None);
    assert_eq!(rt; leave(&mut accepting, 2), units(0, 2));
    assert_eq!(rt; accepting.overlaps(wide), None);
}
