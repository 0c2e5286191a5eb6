//! The units that are being accepted.
ghost use Rattle.std.specs.Prelude.{◌≡◌, ℕ, ◌<◌, None, Some, Option, IsSome, IfSome, IfNone, length, replicate, slice_set};
ghost use Rattle.std.specs.Option.{option_map};
ghost use Rattle.guest_base.specs.declared.memory.Units.{Units};
ghost use Rattle.accepting_ranges.specs.Claims.{kept_of, MeetsNone, IsFirstToMeet, AreApart};

use arrayvec::ArrayVec;
use guest_base::{CpuNo, Units};
use std::marker::Model;

/// The places of the processors.
const PLACES: usize = 64;

/// What a processor keeps while it accepts units.
pub trait Claim: Drop {
    ghost units: { Self → Units };

    /// The units that are being accepted.
    fn units(&self) -> Units
        ensures { result ≡ units self.now };
}

/// The claims of the processors that accept units while the memory lock is free: at most one per processor, and no two meet
/// (after the accepting list of Linux's `unaccepted_memory.c`).
///
/// Contracts see the list of the processors' claims, in order of their numbers.
#[derive(Drop)]
pub struct Accepting<T: Claim> {
    claims: ArrayVec<Option<T>, PLACES>,
}

impl<T: Claim> Model for Accepting<T> {
    ghost use Rattle.std.specs.Prelude.{List, Option};
    ghost use Rattle.std.specs.Coded.{coded_list, coded_option};
    ghost use Rattle.accepting_ranges.specs.Claims.{AreApart};

    ghost Value = { List (Option T) };

    ghost coded = { coded_list (coded_option T.code) };

    ghost view = { λ a. a.claims.items };

    ghost invariant = { λ a. AreApart T.units a.claims.items };
}

impl<T: Claim> Accepting<T> {
    /// No processor has a claim.
    pub fn new() -> Accepting<T>
        ensures { result ≡ replicate 64 None }
    {
        let mut claims = ArrayVec::new();
        for _ in 0..PLACES {
            claims.push(None);
        }
        Accepting { claims }
    }

    /// The units of a processor's claim.
    pub fn range(&self, cpu: CpuNo) -> Option<Units>
        ensures { result ≡ option_map T.units (kept_of self.now cpu.0) }
    {
        match self.claims.as_slice().get(cpu.0 as usize) {
            Some(Some(claim)) => Some(claim.units()),
            _ => None,
        }
    }

    /// The claims of all processors, in order of their numbers.
    pub fn as_slice(&self) -> &[Option<T>]
        ensures claims { result.now ≡ self.now }
        ensures places { length self.now ≡ 64 }
    {
        self.claims.as_slice()
    }

    /// The units of the first claim, in order of processors, that meets a range.
    pub fn overlaps(&self, range: Units) -> Option<Units>
        ensures some { IfSome result (IsFirstToMeet T.units self.now range) }
        ensures none { IfNone result (MeetsNone T.units self.now range) }
        ensures apart { AreApart T.units self.now }
    {
        first_to_meet(self.claims.as_slice(), range)
    }

    /// Gives a processor a claim, which meets no other.
    pub fn add(&mut self, cpu: CpuNo, claim: T)
        requires cpu { cpu.0 < 64 }
        requires free { kept_of self.old cpu.0 ≡ None }
        requires apart { MeetsNone T.units self.old (T.units claim) }
        ensures { self.new ≡ slice_set self.old cpu.0 (Some claim) }
    {
        put(self.claims.as_mut_slice(), cpu, Some(claim));
    }

    /// Takes a processor's claim away. None of those that stay meets it.
    pub fn remove(&mut self, cpu: CpuNo) -> T
        requires { IsSome (kept_of self.old cpu.0) }
        ensures taken { kept_of self.old cpu.0 ≡ Some result }
        ensures rest { self.new ≡ slice_set self.old cpu.0 None }
        ensures apart { MeetsNone T.units self.new (T.units result) }
    {
        take(self.claims.as_mut_slice(), cpu)
    }
}

fn first_to_meet<T: Claim>(claims: &[Option<T>], range: Units) -> Option<Units>
    ensures some { IfSome result (IsFirstToMeet T.units claims.now range) }
    ensures none { IfNone result (MeetsNone T.units claims.now range) }
{
    for claim in claims {
        if let Some(claim) = claim {
            let units = claim.units();
            if units.meets(range) {
                return Some(units);
            }
        }
    }
    None
}

fn put<T: Claim>(claims: &mut [Option<T>], cpu: CpuNo, claim: Option<T>)
    requires { cpu.0 < length claims.old }
    ensures { claims.new ≡ slice_set claims.old cpu.0 claim }
{
    claims[cpu.0 as usize] = claim;
}

fn take<T: Claim>(claims: &mut [Option<T>], cpu: CpuNo) -> T
    requires { IsSome (kept_of claims.old cpu.0) }
    ensures taken { kept_of claims.old cpu.0 ≡ Some result }
    ensures rest { claims.new ≡ slice_set claims.old cpu.0 None }
{
    match claims[cpu.0 as usize].take() {
        Some(claim) => claim,
        None => unreachable!(),
    }
}
