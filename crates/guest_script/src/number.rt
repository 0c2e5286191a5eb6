//! Numbers.
ghost use Rattle.std.specs.Prelude.{◌≡◌, ◌≤◌};
ghost use Rattle.guest_script.specs.Number.{number_of, digits_number, small_value};

/// The most digits of a decimal number.
const MOST_DECIMAL: usize = 20;
/// The most digits of a hexadecimal number.
const MOST_HEX: usize = 16;

/// The number that a word spells: 1 to 20 decimal digits, or `0x` and 1 to 16 hexadecimal digits of either
/// case, with a value below 2^64. None exactly where the word spells none.
pub fn read_number(word: &[u8]) -> Option<u64>
    ensures { result ≡ number_of word.now }
{
    match word {
        [b'0', b'x', digits @ ..] => read_digits(digits, 16, MOST_HEX),
        _ => read_digits(word, 10, MOST_DECIMAL),
    }
}

fn read_digits(digits: &[u8], base: u32, most: usize) -> Option<u64>
    requires low { 2 ≤ base }
    requires high { base ≤ 16 }
    ensures { result ≡ digits_number base most digits.now }
{
    if digits.is_empty() || digits.len() > most {
        return None;
    }
    value_of(digits, base)
}

fn value_of(digits: &[u8], base: u32) -> Option<u64>
    requires low { 2 ≤ base }
    requires high { base ≤ 16 }
    ensures { result ≡ small_value base digits.now }
{
    let mut value: u64 = 0;
    for byte in digits {
        let digit = char::from(*byte).to_digit(base)?;
        value = value
            .checked_mul(u64::from(base))?
            .checked_add(u64::from(digit))?;
    }
    Some(value)
}
