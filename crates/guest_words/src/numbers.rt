//! The numbers among the options.
ghost use Rattle.std.specs.Prelude.{◌≡◌, ◌≤◌, IfSome, true};
ghost use Rattle.std.specs.Int.{IsPowerOfTwo};
ghost use Rattle.guest_words.specs.Words.{slots_of, areas_of, areas_in, is_areas, is_cpus};
ghost use Rattle.guest_base.specs.Requests.{raised_to_power};
ghost use Rattle.guest_base.specs.declared.limits.TheConstants.{MAX_AREAS, MAX_SLOTS};
ghost use Rattle.guest_words.specs.Steps.{listed};

use guest_base::limits::MAX_SLOTS;
use guest_script::read_number;

/// The slots where the words give none.
const USUAL_SLOTS: u32 = 32_768;

/// The slots that are asked for the pool, 0 to 131,072. None where the value is no such number.
pub(crate) fn read_slots(value: Option<&str>) -> Option<u32>
    ensures told { result ≡ slots_of (listed value.entry) }
    ensures few { IfSome result (λ slots. slots ≤ MAX_SLOTS) }
{
    let Some(value) = value else {
        return Some(USUAL_SLOTS);
    };
    let slots = read_number(value.as_bytes())?;
    if slots <= u64::from(MAX_SLOTS) {
        Some(slots as u32)
    } else {
        None
    }
}

/// The areas of the pool: where the words give none, the number of processors, raised to a power of two.
/// None where the value is no power of two from 1 to 64.
pub(crate) fn read_areas(value: Option<&str>, cpus: u32) -> Option<u32>
    requires cpus { is_cpus cpus ≡ true }
    ensures told { result ≡ areas_of cpus (listed value.entry) }
    ensures few { IfSome result (λ areas. areas ≤ MAX_AREAS) }
    ensures power { IfSome result (λ areas. IsPowerOfTwo areas) }
{
    match value {
        None => Some(raised(cpus)),
        Some(value) => areas_in(read_number(value.as_bytes())?),
    }
}

/// A number of processors, raised to a power of two.
#[tactic(auto, using(crate::proofs::NumberLemmas::raises, crate::proofs::NumberLemmas::raised_few))]
fn raised(cpus: u32) -> u32
    requires cpus { is_cpus cpus ≡ true }
    ensures raised { result ≡ raised_to_power cpus }
    ensures few { result ≤ MAX_AREAS }
    ensures power { IsPowerOfTwo result }
{
    cpus.next_power_of_two()
}

/// A number of areas; none where it is no power of two from 1 to 64.
#[tactic(auto, using(crate::proofs::NumberLemmas::areas_few, crate::proofs::NumberLemmas::areas_power))]
fn areas_in(count: u64) -> Option<u32>
    ensures told { result ≡ areas_in (Some count) }
    ensures few { IfSome result (λ areas. areas ≤ MAX_AREAS) }
    ensures power { IfSome result (λ areas. IsPowerOfTwo areas) }
{
    if is_areas(count) {
        Some(count as u32)
    } else {
        None
    }
}

/// Whether a number is a power of two from 1 to 64.
#[tactic(auto, using(crate::proofs::NumberLemmas::areas_told))]
fn is_areas(count: u64) -> bool
    ensures { result ≡ is_areas count }
{
    count == 1
        || count == 2
        || count == 4
        || count == 8
        || count == 16
        || count == 32
        || count == 64
}
