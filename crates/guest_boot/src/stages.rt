//! The stages of boot.
ghost use Rattle.std.specs.Prelude.{◌≡◌, ℕ, ◌+◌, ◌^◌, ◌<◌, ◌≤◌, [], Some, None, Err, All, IfOk, OnOk, length};
ghost use Rattle.std.specs.List.{AllPairs};
ghost use Rattle.guest_base.specs.declared.limits.TheConstants.{ADDRESS_END, PAGE_END};
ghost use Rattle.guest_base.specs.Counts.{Rose};
ghost use Rattle.guest_base.specs.declared.memory.Block.{Block as BlockValue};
ghost use Rattle.guest_base.specs.declared.memory.Page.{Page as PageValue};
ghost use Rattle.guest_base.specs.declared.memory.PageRun.{PageRun as PageRunValue};
ghost use Rattle.event_core.specs.Boot.{InTurn, AcceptsPiece, AcceptsRange, AcceptsBlock};
ghost use Rattle.event_core.specs.Cut.{cut};
ghost use Rattle.event_core.specs.Runs.{GoesBefore};
ghost use Rattle.memory_core.specs.Bitmaps.{bits_in, guarded_by};
ghost use Rattle.memory_core.specs.Booted.{IsBooted};
ghost use Rattle.guest_boot.specs.Booting.{StandsAfter, WorkedOn, FaultsBy, AcceptsRunPiece, IsEarly, runs_in};
ghost use Rattle.guest_boot.specs.Putting.{waits_then, HasPut, AllPut};

use crate::accept::{Kept, accept_piece, accept_units};
use crate::fault::BootFault;
use crate::store::put_block;
use block_allocator::Blocks;
use event_core::Boot;
use guest_base::limits::{MAX_ORDER, PAGE_BYTES};
use guest_base::{Block, PageRun, Unit, Units};
use memory_core::has_unaccepted;
use page_module::Port;
use std::alloc::{AllocError, Global};
use unaccepted_bitmap::Bitmap;

/// Accepts the early pieces, one after another.
pub(crate) fn accept_early<P: Port>(
    alloc: Global,
    boot: &Boot,
    kept: &mut Kept,
    port: &mut P,
    pieces: &[PageRun],
) -> Result<(), BootFault>
    requires booted { IsBooted boot.now }
    requires stands { StandsAfter boot.now (P.made port.old) kept.old }
    requires early { All (λ (piece : PageRunValue). IsEarly boot.now piece.pages) pieces.now }
    ensures done { WorkedOn boot.now
        (InTurn (AcceptsRunPiece boot.now) (P.made port.old) pieces.now)
        (P.made port.old) (P.made port.new) kept.new result }
    ensures faults { FaultsBy (P.faults port.old) (P.faults port.new) result }
    ensures never_fails { P.never_fails port.old → P.never_fails port.new }
{
    for piece in pieces {
        accept_piece(alloc, boot, kept, port, piece.pages)?;
    }
    Ok(())
}

/// The runs of unaccepted units among the guarded ones of a range of bytes, rising.
fn unaccepted_runs(
    alloc: Global,
    bits: &Option<Bitmap>,
    start: u64,
    len: u64,
) -> Result<Vec<Units>, AllocError>
    requires some { 1 ≤ len }
    requires end { start + len ≤ ADDRESS_END }
    ensures { IfOk result (λ runs.
        runs.items ≡ runs_in (bits_in bits.now) (guarded_by bits.now start len)) }
{
    match bits {
        Some(bits) => match bits.claim_units(start, len) {
            Some(units) => runs_of(alloc, bits, units),
            None => Ok(Vec::new(alloc)),
        },
        None => Ok(Vec::new(alloc)),
    }
}

/// The runs of unaccepted units among some, rising.
fn runs_of(alloc: Global, bits: &Bitmap, units: Units) -> Result<Vec<Units>, AllocError>
    requires { units.first + units.count < 2 ^ 64 }
    ensures { IfOk result (λ runs. runs.items ≡ runs_in (bits_in (Some bits.now)) (Some units)) }
{
    let end = units.first + units.count;
    let mut runs = Vec::new(alloc);
    let mut from = units.first;
    while let Some(run) = bits.next_run(Unit(from), Unit(end)) {
        from = run.first + run.count;
        runs.push(run)?;
    }
    Ok(runs)
}

/// Accepts the guarded units of `len` bytes from the address `start` on, run by run.
pub(crate) fn accept_range<P: Port>(
    alloc: Global,
    boot: &Boot,
    kept: &mut Kept,
    port: &mut P,
    start: u64,
    len: u64,
) -> Result<(), BootFault>
    requires some { 1 ≤ len }
    requires end { start + len ≤ ADDRESS_END }
    requires booted { IsBooted boot.now }
    requires stands { StandsAfter boot.now (P.made port.old) kept.old }
    ensures done { WorkedOn boot.now (AcceptsRange boot.now (P.made port.old) start len)
        (P.made port.old) (P.made port.new) kept.new result }
    ensures faults { FaultsBy (P.faults port.old) (P.faults port.new) result }
    ensures never_fails { P.never_fails port.old → P.never_fails port.new }
{
    let runs = unaccepted_runs(alloc, &kept.bits, start, len)?;
    for run in runs.as_slice() {
        accept_units(alloc, boot, kept, port, *run)?;
    }
    Ok(())
}

/// Accepts a block, unless it is one of 4 MiB, of which no page is accepted. The answer tells whether the block waits: it does where
/// it is one of 4 MiB, and one of its guarded units is unaccepted by now.
fn accept_block<P: Port>(
    alloc: Global,
    boot: &Boot,
    kept: &mut Kept,
    port: &mut P,
    block: Block,
) -> Result<bool, BootFault>
    requires order { block.order ≤ 10 }
    requires low { block.first + 2 ^ block.order ≤ PAGE_END }
    requires booted { IsBooted boot.now }
    requires stands { StandsAfter boot.now (P.made port.old) kept.old }
    ensures done { WorkedOn boot.now (AcceptsBlock boot.now (P.made port.old) block)
        (P.made port.old) (P.made port.new) kept.new result }
    ensures waits { IfOk result (λ waits. waits ≡ waits_then boot.now (P.made port.old) block) }
    ensures faults { FaultsBy (P.faults port.old) (P.faults port.new) result }
    ensures never_fails { P.never_fails port.old → P.never_fails port.new }
{
    let pages = block.pages();
    let start = PAGE_BYTES * pages.first;
    let len = PAGE_BYTES * pages.count;
    if block.order == MAX_ORDER {
        return Ok(has_unaccepted(&kept.bits, start, len));
    }
    accept_range(alloc, boot, kept, port, start, len)?;
    Ok(false)
}

/// Accepts the blocks of the cut that are smaller than 4 MiB, one after another, and puts each block into the store, which has none
/// yet and room for all: among the waiting ones those that wait when boot comes to them, and all others among the free ones.
pub(crate) fn accept_blocks<P: Port>(
    alloc: Global,
    boot: &Boot,
    kept: &mut Kept,
    port: &mut P,
    blocks: &[Block],
    store: &mut Blocks,
) -> Result<(), BootFault>
    requires ram { AllPairs GoesBefore boot.now.ram }
    requires blocks { blocks.now ≡ cut boot.now }
    requires orders { All (λ (b : BlockValue). b.order ≤ 10) blocks.now }
    requires low { All (λ (b : BlockValue). b.first + 2 ^ b.order ≤ PAGE_END) blocks.now }
    requires booted { IsBooted boot.now }
    requires stands { StandsAfter boot.now (P.made port.old) kept.old }
    requires empty { HasPut [] store.old }
    requires room { length blocks.now ≤ store.old.room }
    ensures done { WorkedOn boot.now (InTurn (AcceptsBlock boot.now) (P.made port.old) blocks.now)
        (P.made port.old) (P.made port.new) kept.new result }
    ensures put { OnOk result
        (AllPut boot.now (P.made port.old) blocks.now (P.made port.new) store.new) }
    ensures faults { FaultsBy (P.faults port.old) (P.faults port.new) result }
    ensures never_fails { P.never_fails port.old → P.never_fails port.new }
{
    for block in blocks {
        let waits = accept_block(alloc, boot, kept, port, *block)?;
        put_block(store, *block, waits);
    }
    Ok(())
}
