//! Order files: whose turn it is, one processor after another.
ghost use Rattle.std.specs.Prelude.{◌≡◌, ◌<◌, ◌≤◌, ◌^◌, ◌∷◌, [], ℕ, length, string_bytes, Ok, IfOk, OnOk, IfErr};
ghost use Rattle.guest_base.specs.declared.limits.TheConstants.{MAX_TURNS};
ghost use Rattle.guest_script.specs.Order.{begins_comment, turn_words, turn_of, words_fault, order_in, AddsTurns, IsFirstFault, OrderGives, turns_text, ReadableOrder};
ghost use Rattle.guest_script.specs.declared.order.OrderFault.TheVariants.{NoMemory as OrderNoMemory};

use crate::number::read_number;
use crate::words::is_blank;
use event_core::Order;
use guest_base::limits::MAX_TURNS;
use guest_base::{Bytes, CpuNo, Items};
use std::alloc::{AllocError, AllocFailed, Global};
use std::fmt::Write;
use thiserror::Error;

/// Why an order file isn't read: the first fault in the order of its words.
#[derive(Clone, Copy, Debug, PartialEq, Eq, Drop, Error)]
pub enum OrderFault {
    /// The word of this number, counted from 1, those of comments not counted, isn't a number below the number of processors.
    #[error("word {0}")]
    Word(u64),
    /// There is a 16,777,217th number.
    #[error("too many")]
    TooMany,
    /// Out of memory.
    #[error("out of memory")]
    NoMemory,
}

impl<T: Drop> From<AllocFailed<T>> for OrderFault {
    ghost from_gives = { λ _ e. e ≡ OrderNoMemory };

    fn from(_e: AllocFailed<T>) -> OrderFault {
        OrderFault::NoMemory
    }
}

/// Reads an order file for this many processors: numbers below `cpus`, spelt as in scripts, parted by spaces, tabs and line feeds.
/// What stands on a line from a word that begins with `#` on is skipped. An empty file is an order without turns.
/// The fault is the first one in the order of the words.
pub fn read_order(alloc: Global, bytes: &[u8], cpus: u32) -> Result<Order, OrderFault>
    ensures order { OrderGives result (order_in cpus bytes.now) }
    ensures readable { IfOk result (λ order. ReadableOrder cpus order) }
{
    let mut turns = Vec::new(alloc);
    for line in bytes.split(|byte| *byte == b'\n') {
        read_turns(line, cpus, &mut turns)?;
    }
    Ok(Items::from_vec(turns))
}

/// Adds the turns of a line.
fn read_turns(line: &[u8], cpus: u32, turns: &mut Vec<CpuNo>) -> Result<(), OrderFault>
    requires few { length turns.old.items ≤ MAX_TURNS }
    ensures ok { OnOk result
        (AddsTurns cpus (turn_words line.now) turns.old.items turns.new.items) }
    ensures err { IfErr result (λ fault. IsFirstFault fault
        (words_fault cpus (length turns.old.items) (turn_words line.now))) }
{
    for word in line
        .split(|byte| is_blank(*byte))
        .filter(|word| !word.is_empty())
        .take_while(|word| !begins_comment(word))
    {
        add_turn(word, cpus, turns)?;
    }
    Ok(())
}

/// Adds the turn that a word names.
fn add_turn(word: &[u8], cpus: u32, turns: &mut Vec<CpuNo>) -> Result<(), OrderFault>
    requires few { length turns.old.items ≤ MAX_TURNS }
    ensures ok { OnOk result
        (AddsTurns cpus (word.now ∷ []) turns.old.items turns.new.items) }
    ensures err { IfErr result (λ fault. IsFirstFault fault
        (words_fault cpus (length turns.old.items) (word.now ∷ []))) }
{
    let place = turns.len() as u64;
    let Some(cpu) = turn_of(word, cpus) else {
        return Err(OrderFault::Word(place + 1));
    };
    if place >= MAX_TURNS {
        return Err(OrderFault::TooMany);
    }
    turns.push(cpu)?;
    Ok(())
}

/// The processor that a word names, of this many.
fn turn_of(word: &[u8], cpus: u32) -> Option<CpuNo>
    ensures { result ≡ turn_of cpus word.now }
{
    match read_number(word) {
        Some(number) if number < u64::from(cpus) => Some(CpuNo(number as u32)),
        _ => None,
    }
}

fn begins_comment(word: &[u8]) -> bool
    ensures { result ≡ begins_comment word.now }
{
    matches!(word, [b'#', ..])
}

/// The text of an order file: a line with its number for each turn. It is read again as this order, for every number of processors
/// that are all its turns' numbers are below, where they are at most 16,777,216. Being out of memory is the only error.
#[tactic(auto, using(crate::proofs::PrintedOrderLemmas::order_again))]
pub fn print_order(alloc: Global, order: &Order) -> Result<Bytes, AllocError>
    ensures text { IfOk result (λ text. text ≡ turns_text order.now) }
    ensures read { IfOk result (λ text. (cpus : ℕ) → cpus < 2 ^ 32 → ReadableOrder cpus order.now →
        order_in cpus text ≡ Ok order.now) }
{
    let text = print_turns(alloc, order.as_slice())?;
    Ok(Items::from_vec(text.into_bytes()))
}

fn print_turns(alloc: Global, turns: &[CpuNo]) -> Result<String, AllocError>
    ensures { IfOk result (λ text. string_bytes text ≡ turns_text turns.now) }
{
    let mut text = String::new(alloc);
    for cpu in turns {
        writeln!(text, "{}", cpu.0)?;
    }
    Ok(text)
}
