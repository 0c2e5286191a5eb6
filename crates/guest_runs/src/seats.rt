//! Processors on their ports: how they come to them, and what they leave.
ghost use Rattle.std.specs.Prelude.{◌≡◌, ◌++◌, ◌+◌, ◌≤◌, List, [], All, IfOk, OnErr, length, map, reverse, vec_len, vec_capacity};
ghost use Rattle.std.specs.Option.{ForSome};
ghost use Rattle.block_laws.specs.Runnable.{IsRunnable};
ghost use Rattle.dma_map.specs.Pools.{IsLayout, layout_in};
ghost use Rattle.guest_steps.specs.Ground.{Ground};
ghost use Rattle.guest_steps.specs.Seen.{entries_made};
ghost use Rattle.guest_steps.specs.Standing.{Stands};
ghost use Rattle.guest_cpu.specs.Standing.{CpuStands, seen_by};
ghost use Rattle.guest_runs.specs.Asking.{asking, PortsKept};
ghost use Rattle.guest_runs.specs.Beginning.{Begins};
ghost use Rattle.guest_runs.specs.OnPorts.{first_on, ports_of, HaveBegun};
ghost use Rattle.guest_runs.specs.Recordings.{RunHalts};

use event_core::{Boot, Entries, Hosts, Script, Scripts};
use guest_base::{CpuNo, Items};
use guest_boot::World;
use guest_cpu::Cpu;
use page_module::Port;
use std::alloc::{AllocError, Global};

/// Copies of a boot's host records, one for each processor.
fn copies_of(alloc: Global, hosts: &Hosts, count: usize) -> Result<Vec<Hosts>, AllocError>
    ensures copies { IfOk result (λ copies. All (λ copy. copy ≡ hosts.now) copies.items) }
    ensures count { IfOk result (λ copies. vec_len copies ≡ count) }
{
    let mut copies = Vec::with_capacity(alloc, count)?;
    for _ in 0..count {
        copies.push_reserved(Items::from_vec(hosts.as_slice().to_vec(alloc)?));
    }
    Ok(copies)
}

/// The processors of a boot, one for each script, in order. They take the first ports, and the others are left in reverse order.
fn start_all<P: Port>(
    alloc: Global,
    boot: &Boot,
    scripts: Scripts,
    ports: &mut Vec<P>,
) -> Result<Vec<Cpu<P>>, AllocError>
    requires few { length scripts ≤ 64 }
    requires enough { length scripts ≤ vec_len ports.old }
    requires pool { ForSome (layout_in boot.now) IsLayout }
    requires runnable { All IsRunnable scripts }
    ensures count { IfOk result (λ all. vec_len all ≡ length scripts) }
    ensures ports { IfOk result (λ all.
        ports.old.items ≡ ports_of all.items ++ reverse ports.new.items) }
    ensures seen { IfOk result (λ all. map (seen_by P.made P.faults) all.items
        ≡ first_on P.made P.faults boot.now 0 scripts (ports_of all.items)) }
    ensures stand { IfOk result (λ all. All (λ c. (base : Ground)
        → Stands (seen_by P.made P.faults c) base
        → CpuStands P.made P.faults P.room c base) all.items) }
    ensures room { IfOk result (λ all. vec_len ports.new + vec_len all ≤ vec_capacity ports.new) }
    ensures refused { OnErr result (ports.new.items ≡ ports.old.items) }
{
    let mut hosts = copies_of(alloc, &boot.hosts, scripts.len() as usize)?;
    let mut all = Vec::with_capacity(alloc, scripts.len() as usize)?;
    ports.reverse();
    for script in scripts.into_vec() {
        let number = CpuNo(all.len() as u32);
        let (hosts, port) = (hosts.take_last(), ports.take_last());
        all.push_reserved(Cpu::new(alloc, boot, hosts, number, script, port));
    }
    Ok(all)
}

/// What processors leave: their scripts, and their lists of entries.
#[derive(Drop)]
pub(crate) struct Left {
    pub(crate) scripts: Vec<Script>,
    pub(crate) lists: Vec<Entries>,
}

impl Left {
    /// Nothing yet, with room for this many processors.
    pub(crate) fn with_room(alloc: Global, count: u64) -> Result<Left, AllocError>
        ensures scripts { IfOk result (λ left. left.scripts.items ≡ []) }
        ensures lists { IfOk result (λ left. left.lists.items ≡ []) }
        ensures script_room { IfOk result (λ left. count ≤ vec_capacity left.scripts) }
        ensures list_room { IfOk result (λ left. count ≤ vec_capacity left.lists) }
    {
        Ok(Left {
            scripts: Vec::with_capacity(alloc, count as usize)?,
            lists: Vec::with_capacity(alloc, count as usize)?,
        })
    }
}

/// What a run of a world begins with: the processors, one for each script, in order, and room for what they leave. They take the
/// first ports, and the others are left in reverse order. Being out of memory is the only error; the ports stand as before then.
pub(crate) fn begin<P: Port>(
    alloc: Global,
    world: &World,
    scripts: Scripts,
    ports: &mut Vec<P>,
) -> Result<(Vec<Cpu<P>>, Left), AllocError>
    requires begins { Begins P.made world.now scripts ports.old.items }
    ensures begun { IfOk result (λ b. HaveBegun P.made P.faults P.room world.now scripts
        ports.old.items ports.new.items b.0.items) }
    ensures count { IfOk result (λ b. vec_len b.0 ≡ length scripts) }
    ensures room { IfOk result (λ b. vec_len ports.new + vec_len b.0 ≤ vec_capacity ports.new) }
    ensures scripts { IfOk result (λ b. b.1.scripts.items ≡ []) }
    ensures lists { IfOk result (λ b. b.1.lists.items ≡ []) }
    ensures script_room { IfOk result (λ b. length scripts ≤ vec_capacity b.1.scripts) }
    ensures list_room { IfOk result (λ b. length scripts ≤ vec_capacity b.1.lists) }
    ensures halted { OnErr result (RunHalts
        (asking P.made P.faults P.never_fails ports.old.items ports.new.items)
        world.now.boot scripts) }
    ensures kept { OnErr result (PortsKept (length scripts)
        (asking P.made P.faults P.never_fails ports.old.items ports.new.items)) }
{
    let left = Left::with_room(alloc, scripts.len())?;
    let all = start_all(alloc, &world.boot, scripts, ports)?;
    Ok((all, left))
}

/// Puts the ports of processors back before the others, and takes their scripts and entries.
pub(crate) fn finish_all<P: Port>(mut all: Vec<Cpu<P>>, ports: &mut Vec<P>, left: &mut Left)
    requires port_room { vec_len ports.old + vec_len all ≤ vec_capacity ports.old }
    requires script_room { vec_len all ≤ vec_capacity left.old.scripts }
    requires list_room { vec_len all ≤ vec_capacity left.old.lists }
    requires no_script { left.old.scripts.items ≡ [] }
    requires no_list { left.old.lists.items ≡ [] }
    ensures ports { ports.new.items ≡ ports_of all.items ++ reverse ports.old.items }
    ensures scripts { left.new.scripts.items
        ≡ map (λ c. (seen_by P.made P.faults c).script) all.items }
    ensures lists { left.new.lists.items
        ≡ map (λ c. entries_made (seen_by P.made P.faults c)) all.items }
{
    while let Some(cpu) = all.pop() {
        let (port, script, entries) = cpu.finish();
        ports.push_reserved(port);
        left.scripts.push_reserved(script);
        left.lists.push_reserved(entries);
    }
    all.destroy_empty();
    ports.reverse();
    left.scripts.reverse();
    left.lists.reverse();
}
