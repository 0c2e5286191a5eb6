//! Processors whose ranges meet, by turns and on threads.
ghost use Rattle.std.specs.Prelude.{◌≡◌, ◌≤◌, ◌<◌, ◌^◌, [], List, All, IfOk, length};
ghost use Rattle.event_core.specs.declared.command.Command.{Command as CommandValue};
ghost use Rattle.event_core.specs.ReadableScript.{IsReadable, bytes_named};
ghost use Rattle.block_laws.specs.Unconverting.{ConvertsNothing};
ghost use Rattle.block_laws.specs.Runnable.{IsRunnable};
ghost use Rattle.guest_runs.specs.Beginning.{Begins};

use crate::{run_threads, turns};
use event_core::{Command, Order, Recorded, Reply, Runs, Script, Scripts};
use guest_base::{CpuNo, Items, Pages};
use guest_boot::{World, boot};
use guest_history::order_of;
use guest_map::GuestMap;
use page_module::{MemPort, Port};
use std::alloc::{AllocError, Global};
use std::sync::Wait;
use std::test::Fail;
use std::thread::Threads;

/// The bytes of a unit.
const UNIT: u64 = 0x20_0000;

/// A port for each processor, of which the calls with these numbers fail.
fn ports_failing(alloc: Global, cpus: u32, failing: &[u64]) -> Result<Vec<MemPort>, AllocError>
    ensures count { IfOk result (λ ports. length ports.items ≡ cpus) }
    ensures unmade { IfOk result (λ ports.
        All (λ port. ⟦<MemPort as Port>⟧.made port ≡ []) ports.items) }
{
    let mut ports = Vec::new(alloc);
    for cpu in 0..cpus {
        ports.push(MemPort::new(alloc, failing.to_vec(alloc)?))?;
    }
    Ok(ports)
}

/// A guest of this many processors and this many pages from 4 MiB on, all unaccepted, and their ports.
fn guest_of(
    alloc: Global,
    pages: u64,
    cpus: u32,
    failing: &[u64],
) -> Result<(World, Vec<MemPort>), Fail>
    requires some { 0 < pages }
    requires end { pages ≤ 2 ^ 24 }
    requires one { 0 < cpus }
    requires few { cpus ≤ 64 }
    ensures { IfOk result (λ g. (scripts : List (List CommandValue)) →
        length scripts ≡ cpus → All IsRunnable scripts →
        Begins (⟦<MemPort as Port>⟧.made) g.0 scripts g.1.items) }
{
    let first = 1024;
    let map = GuestMap::unaccepted(
        alloc,
        Pages {
            first,
            count: pages,
        },
    )?;
    let mut ports = ports_failing(alloc, cpus, failing)?;
    match boot(alloc, &map, None, 0, 1, cpus, &mut ports[0]) {
        Ok(world) => Ok((world, ports)),
        Err(_) => Err(Fail::from("no world")),
    }
}

/// An acceptance of so many units from one on.
fn accept(first: u64, count: u64) -> Command
    requires first { first < 512 }
    requires count { count < 512 }
    ensures readable { IsReadable result }
    ensures unconverting { ConvertsNothing result }
    ensures unnamed { bytes_named result ≡ 0 }
{
    Command::Accept {
        start: 2 * UNIT + UNIT * first,
        len: UNIT * count,
    }
}

/// A script of one command.
fn one(alloc: Global, command: Command) -> Result<Script, AllocError>
    requires readable { IsReadable command }
    requires unconverting { ConvertsNothing command }
    requires unnamed { bytes_named command ≡ 0 }
    ensures { IfOk result (λ script. IsRunnable script) }
{
    Ok(Items::from_vec(vec![in alloc; command]?))
}

/// The scripts of two processors: the second one's unit is among those that the first one accepts.
fn two_meeting(alloc: Global) -> Result<Scripts, AllocError>
    ensures count { IfOk result (λ scripts. length scripts ≡ 2) }
    ensures runnable { IfOk result (λ scripts. All IsRunnable scripts) }
{
    let (first, second) = (one(alloc, accept(0, 2))?, one(alloc, accept(1, 1))?);
    Ok(Items::from_vec(vec![in alloc; first, second]?))
}

#[test]
fn two_meet_by_turns(rt: HostRuntime) -> Result<(), Fail> {
    let alloc = rt.alloc();
    let (world, mut ports) = guest_of(alloc, 2048, 2, &[])?;
    let order = Items::from_vec(vec![in alloc; CpuNo(0), CpuNo(1)]?);
    let (run, runs) = turns(alloc, world, two_meeting(alloc)?, &order, &mut ports)?;
    let [claim, report, late] = run.entries.as_slice() else {
        return Err(Fail::from("three entries"));
    };
    assert_eq!(rt; (claim.cpu, claim.stamp), (CpuNo(0), 1));
    assert_eq!(rt; (report.cpu, report.stamp), (CpuNo(0), 2));
    assert_eq!(rt; (late.cpu, late.stamp), (CpuNo(1), 3));
    assert!(rt; matches!(report.reply, Some(Reply::Count(3))));
    assert!(rt; matches!(late.reply, Some(Reply::Count(0))));
    assert_eq!(rt; runs.len(), 2);
    Ok(())
}

#[test]
fn two_meet_on_threads(rt: HostRuntime) -> Result<(), Fail> {
    let alloc = rt.alloc();
    let (world, mut ports) = guest_of(alloc, 2048, 2, &[])?;
    let (run, runs) = run_threads(&rt, alloc, world, two_meeting(alloc)?, &mut ports)?;
    assert!(rt; run.entries.len() >= 3);
    assert_eq!(rt; runs.len(), 2);
    Ok(())
}

/// The script of one of 64 processors: 32 acceptances of 1 to 4 of the same 512 units.
fn one_of_many(alloc: Global, cpu: u64, round: u64) -> Result<Script, AllocError>
    requires cpu { cpu < 64 }
    requires round { round < 1000 }
    ensures { IfOk result (λ script. IsRunnable script) }
{
    let mut script = Vec::new(alloc);
    for number in 0..32 {
        let first = (7 * cpu + 37 * number + 11 * round) % 508;
        script.push(accept(first, 1 + (cpu + number) % 4))?;
    }
    Ok(Items::from_vec(script))
}

/// The scripts of 64 processors that meet.
fn many_meeting(alloc: Global, round: u64) -> Result<Scripts, AllocError>
    requires { round < 1000 }
    ensures count { IfOk result (λ scripts. length scripts ≡ 64) }
    ensures runnable { IfOk result (λ scripts. All IsRunnable scripts) }
{
    let mut scripts = Vec::new(alloc);
    for cpu in 0..64 {
        scripts.push(one_of_many(alloc, cpu, round)?)?;
    }
    Ok(Items::from_vec(scripts))
}

/// Runs 64 processors on threads, of whose ports some calls fail, and then by turns in the order of the run, and tells whether the
/// final runs of pages are the same.
fn agrees<R: Threads + Wait + Sync>(rt: &R, alloc: Global, round: u64) -> Result<bool, Fail>
    requires { round < 1000 }
{
    let failing = [3, 4, 9, 10];
    let (world, mut ports) = guest_of(alloc, 262_144, 64, &failing)?;
    let (run, runs) = run_threads(rt, alloc, world, many_meeting(alloc, round)?, &mut ports)?;
    let order = order_of(alloc, &run)?;
    let (world, mut ports) = guest_of(alloc, 262_144, 64, &failing)?;
    let (again, same) = turns(
        alloc,
        world,
        many_meeting(alloc, round)?,
        &order,
        &mut ports,
    )?;
    Ok(again.entries.len() == run.entries.len() && runs.as_slice() == same.as_slice())
}

/// Whether so many runs of 64 processors agree with turns, from a round on.
fn agree_from<R: Threads + Wait + Sync>(rt: &R, alloc: Global, first: u64) -> Result<bool, Fail>
    requires { first < 100 }
{
    for round in first..first + 20 {
        if !agrees(rt, alloc, round)? {
            return Ok(false);
        }
    }
    Ok(true)
}

#[test]
fn sixty_four_meet(rt: HostRuntime) -> Result<(), Fail> {
    assert!(rt; agree_from(&rt, rt.alloc(), 0)?);
    Ok(())
}

#[test]
fn sixty_four_meet_again(rt: HostRuntime) -> Result<(), Fail> {
    assert!(rt; agree_from(&rt, rt.alloc(), 20)?);
    Ok(())
}

#[test]
fn sixty_four_meet_a_third_time(rt: HostRuntime) -> Result<(), Fail> {
    assert!(rt; agree_from(&rt, rt.alloc(), 40)?);
    Ok(())
}

#[test]
fn sixty_four_meet_a_fourth_time(rt: HostRuntime) -> Result<(), Fail> {
    assert!(rt; agree_from(&rt, rt.alloc(), 60)?);
    Ok(())
}

#[test]
fn sixty_four_meet_a_fifth_time(rt: HostRuntime) -> Result<(), Fail> {
    assert!(rt; agree_from(&rt, rt.alloc(), 80)?);
    Ok(())
}
