//! Two processors that accept side by side: each one's module call is done only once the other one has come to its own.
ghost use Rattle.std.specs.Prelude.{◌≡◌, List, All, IfOk, length};
ghost use Rattle.event_core.specs.declared.command.Command.{Command as CommandValue};
ghost use Rattle.guest_cpu.specs.Standing.{CpuStands, seen_by};
ghost use Rattle.block_laws.specs.Runnable.{IsRunnable};
ghost use Rattle.guest_runs.specs.Beginning.{Begins};
ghost use Rattle.guest_threads.specs.Seated.{AllSeated, Seated};
ghost use Rattle.gate_port.specs.Gate.{calls_made, faults_of, room_of};

use crate::seats::begin;
use event_core::{Command, Entries, NoRoom, Reply, Script, Scripts};
use gate_port::GatePort;
use guest_base::{Items, Pages};
use guest_boot::{World, boot};
use guest_cpu::Cpu;
use guest_map::GuestMap;
use guest_threads::{Driven, Locks, Passes, lock_all, run_one};
use page_module::Port;
use std::alloc::{AllocError, Global};
use std::sync::Wait;
use std::test::Fail;
use std::thread;
use std::thread::Threads;

/// Runs a processor with its passes, and tells how it ended.
fn run_with<R: Wait>(
    rt: &R,
    alloc: Global,
    locks: &Locks,
    passes: Passes,
    cpu: &mut Cpu<GatePort>,
) -> Result<(), NoRoom>
    requires { Seated (seen_by calls_made faults_of) (CpuStands calls_made faults_of room_of)
        locks.now passes cpu.old }
{
    let Driven { passes: _, answer } = run_one(rt, alloc, locks, passes, cpu);
    answer
}

/// The reply of the last entry.
fn last_reply(entries: &Entries) -> Option<&Reply> {
    entries.as_slice().last()?.reply.as_ref()
}

/// Runs two processors on two threads.
fn run_both<R: Threads + Wait + Sync>(
    rt: &R,
    alloc: Global,
    locks: &Locks,
    passes: (Passes, Passes),
    cpu: &mut Cpu<GatePort>,
    other: &mut Cpu<GatePort>,
) -> (Result<(), NoRoom>, Result<(), NoRoom>)
    requires first { Seated (seen_by calls_made faults_of) (CpuStands calls_made faults_of room_of)
        locks.now passes.0 cpu.old }
    requires second { Seated (seen_by calls_made faults_of) (CpuStands calls_made faults_of room_of)
        locks.now passes.1 other.old }
{
    let (mine, others) = passes;
    thread::join(
        rt,
        || run_with(rt, alloc, locks, mine, cpu),
        || run_with(rt, alloc, locks, others, other),
    )
}

/// A guest of two processors, with a pair of ports that meet.
fn gated(alloc: Global) -> Result<(World, Vec<GatePort>), Fail>
    ensures { IfOk result (λ g. (scripts : List (List CommandValue)) →
        length scripts ≡ 2 → All IsRunnable scripts → Begins calls_made g.0 scripts g.1.items) }
{
    let (one, other) = GatePort::pair(alloc)?;
    let mut ports = vec![in alloc; one, other]?;
    let (first, count) = (1024, 4096);
    let map = GuestMap::unaccepted(alloc, Pages { first, count })?;
    match boot(alloc, &map, None, 0, 1, 2, &mut ports[0]) {
        Ok(world) => Ok((world, ports)),
        Err(_) => Err(Fail::from("no world")),
    }
}

/// The script of an acceptance of one page.
fn accept_at(alloc: Global, start: u64) -> Result<Script, AllocError>
    ensures { IfOk result (λ script. IsRunnable script) }
{
    let len = 0x1000;
    Ok(Items::from_vec(vec![in alloc; Command::Accept { start, len }]?))
}

/// Two processors accept pages of different units.
fn apart(alloc: Global) -> Result<Scripts, AllocError>
    ensures count { IfOk result (λ scripts. length scripts ≡ 2) }
    ensures runnable { IfOk result (λ scripts. All IsRunnable scripts) }
{
    let (near, far) = (accept_at(alloc, 0x40_0000)?, accept_at(alloc, 0x100_0000)?);
    Ok(Items::from_vec(vec![in alloc; near, far]?))
}

/// The locks of such a guest, the passes and the processors.
struct Seats {
    locks: Locks,
    passes: Vec<Passes>,
    all: Vec<Cpu<GatePort>>,
}

fn seats_of(alloc: Global) -> Result<Seats, Fail>
    ensures seated { IfOk result (λ s. AllSeated (seen_by calls_made faults_of)
        (CpuStands calls_made faults_of room_of) s.locks s.passes.items s.all.items) }
    ensures two { IfOk result (λ s. length s.all.items ≡ 2) }
{
    let (world, mut ports) = gated(alloc)?;
    let (all, _) = begin(alloc, &world, apart(alloc)?, &mut ports)?;
    let World { memory, areas, .. } = world;
    let (locks, passes, _) = lock_all(alloc, memory, areas, &all)?;
    Ok(Seats { locks, passes, all })
}

#[test]
fn two_accept_side_by_side(rt: HostRuntime) -> Result<(), Fail> {
    let alloc = rt.alloc();
    let Seats {
        locks,
        mut passes,
        mut all,
    } = seats_of(alloc)?;
    let (others, mine) = (passes.take_last(), passes.take_last());
    let (mut other, mut cpu) = (all.take_last(), all.take_last());
    let (one, two) = run_both(&rt, alloc, &locks, (mine, others), &mut cpu, &mut other);
    assert!(rt; one.is_ok() && two.is_ok());
    let (_, _, entries) = cpu.finish();
    let (_, _, other_entries) = other.finish();
    assert!(rt; matches!(last_reply(&entries), Some(Reply::Count(1))));
    assert!(rt; matches!(last_reply(&other_entries), Some(Reply::Count(1))));
    Ok(())
}
