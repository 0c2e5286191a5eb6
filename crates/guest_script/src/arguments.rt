//! The arguments of a command.
ghost use Rattle.std.specs.Prelude.{◌≡◌, ◌<◌, ◌≤◌, IfOk};
ghost use Rattle.guest_script.specs.Words.{texts};
ghost use Rattle.guest_script.specs.Arguments.{name_at, number_at, order_at, byte_at, mask_at, direction_at, hex_at, one_name, two_numbers, name_order, name_offset, name_range, name_hex, offset_hex};
ghost use Rattle.guest_script.specs.Answers.{LineGives};

use crate::fault::{LineFault, Why};
use crate::hex_digits::read_hex;
use crate::name::read_name;
use crate::number::read_number;
use event_core::Name;
use guest_base::limits::MAX_ORDER;
use guest_base::{Bytes, Direction};
use std::alloc::Global;

#[tactic(auto, unfolding(crate::specs::Arguments::name_at))]
pub(crate) fn name_at(word: &[u8]) -> Result<Name, Why>
    ensures { result ≡ name_at word.now }
{
    read_name(word).ok_or(Why::Word)
}

#[tactic(auto, unfolding(crate::specs::Arguments::number_at))]
pub(crate) fn number_at(word: &[u8]) -> Result<u64, Why>
    ensures { result ≡ number_at word.now }
{
    read_number(word).ok_or(Why::Number)
}

#[tactic(auto, unfolding(crate::specs::Arguments::order_at))]
fn order_at(word: &[u8]) -> Result<u32, Why>
    ensures { result ≡ order_at word.now }
{
    match read_number(word) {
        Some(order) if order <= u64::from(MAX_ORDER) => Ok(order as u32),
        _ => Err(Why::Number),
    }
}

#[tactic(auto, unfolding(crate::specs::Arguments::byte_at))]
pub(crate) fn byte_at(word: &[u8]) -> Result<u8, Why>
    ensures { result ≡ byte_at word.now }
{
    match read_number(word) {
        Some(byte) if byte <= 255 => Ok(byte as u8),
        _ => Err(Why::Number),
    }
}

#[tactic(auto, unfolding(crate::specs::Arguments::mask_at))]
pub(crate) fn mask_at(word: &[u8]) -> Result<u64, Why>
    ensures { result ≡ mask_at word.now }
{
    match read_number(word) {
        Some(mask) if mask == 0 || mask == 4095 => Ok(mask),
        _ => Err(Why::Number),
    }
}

#[tactic(auto, unfolding(crate::specs::Arguments::direction_at))]
pub(crate) fn direction_at(word: &[u8]) -> Result<Direction, Why>
    ensures { result ≡ direction_at word.now }
{
    if word == b"to".as_slice() {
        Ok(Direction::ToDevice)
    } else if word == b"from".as_slice() {
        Ok(Direction::FromDevice)
    } else if word == b"both".as_slice() {
        Ok(Direction::Both)
    } else {
        Err(Why::Word)
    }
}

#[tactic(auto, unfolding(crate::specs::Arguments::hex_at))]
fn hex_at(alloc: Global, word: &[u8]) -> Result<Bytes, LineFault>
    ensures { LineGives result (hex_at word.now) }
{
    match read_hex(alloc, word) {
        Ok(Some(bytes)) => Ok(bytes),
        Ok(None) => Err(LineFault::Why(Why::Hex)),
        Err(_) => Err(LineFault::NoMemory),
    }
}

/// NAME
#[tactic(auto, unfolding(crate::specs::Arguments::one_name))]
pub(crate) fn one_name(words: &[&[u8]]) -> Result<Name, Why>
    ensures { result ≡ one_name (texts words.now) }
{
    match words {
        [name] => name_at(name),
        _ => Err(Why::Arity),
    }
}

/// START LEN, or OFF LEN
#[tactic(auto, unfolding(crate::specs::Arguments::two_numbers))]
pub(crate) fn two_numbers(words: &[&[u8]]) -> Result<(u64, u64), Why>
    ensures { result ≡ two_numbers (texts words.now) }
{
    let [first, second] = words else {
        return Err(Why::Arity);
    };
    let first = number_at(first)?;
    let second = number_at(second)?;
    Ok((first, second))
}

/// NAME ORDER
#[tactic(auto, unfolding(crate::specs::Arguments::name_order))]
pub(crate) fn name_order(words: &[&[u8]]) -> Result<(Name, u32), Why>
    ensures { result ≡ name_order (texts words.now) }
{
    let [name, order] = words else {
        return Err(Why::Arity);
    };
    let name = name_at(name)?;
    let order = order_at(order)?;
    Ok((name, order))
}

/// NAME OFF
#[tactic(auto, unfolding(crate::specs::Arguments::name_offset))]
pub(crate) fn name_offset(words: &[&[u8]]) -> Result<(Name, u64), Why>
    ensures { result ≡ name_offset (texts words.now) }
{
    let [name, off] = words else {
        return Err(Why::Arity);
    };
    let name = name_at(name)?;
    let off = number_at(off)?;
    Ok((name, off))
}

/// NAME OFF LEN
#[tactic(auto, unfolding(crate::specs::Arguments::name_range))]
pub(crate) fn name_range(words: &[&[u8]]) -> Result<(Name, u64, u64), Why>
    ensures { result ≡ name_range (texts words.now) }
{
    let [name, off, len] = words else {
        return Err(Why::Arity);
    };
    let name = name_at(name)?;
    let off = number_at(off)?;
    let len = number_at(len)?;
    Ok((name, off, len))
}

/// NAME OFF HEX
#[tactic(auto, unfolding(crate::specs::Arguments::name_hex))]
pub(crate) fn name_hex(alloc: Global, words: &[&[u8]]) -> Result<(Name, u64, Bytes), LineFault>
    ensures { LineGives result (name_hex (texts words.now)) }
{
    let [name, off, hex] = words else {
        return Err(LineFault::Why(Why::Arity));
    };
    let name = name_at(name)?;
    let off = number_at(off)?;
    let hex = hex_at(alloc, hex)?;
    Ok((name, off, hex))
}

/// OFF HEX
#[tactic(auto, unfolding(crate::specs::Arguments::offset_hex))]
pub(crate) fn offset_hex(alloc: Global, words: &[&[u8]]) -> Result<(u64, Bytes), LineFault>
    ensures { LineGives result (offset_hex (texts words.now)) }
{
    let [off, hex] = words else {
        return Err(LineFault::Why(Why::Arity));
    };
    let off = number_at(off)?;
    let hex = hex_at(alloc, hex)?;
    Ok((off, hex))
}
