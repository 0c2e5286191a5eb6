//! Guests that allocate, write, read and free blocks.
ghost use Rattle.std.specs.Prelude.{◌<◌, ◌≤◌};

use crate::tests::{MAP, files_of, gate_ports, named, ports_failing, ran, turned, words_of};
use crate::{plain, top};
use event_core::Recorded;
use guest_history::order_of;
use guest_io::{MemFiles, MemSink};
use guest_script::print_order;
use std::alloc::{AllocError, Global};
use std::fmt::Write;
use std::sync::Wait;
use std::test::Fail;
use std::thread::Threads;

/// `mem 7 0x0 1`.
const ONE_PAGE: [u8; 60] = [
    b'G', b'M', b'A', b'P', 40, 0, 0, 0, 1, 0, 0, 0, 1, 0, 0, 0, // the header
    7, 0, 0, 0, 0, 0, 0, 0, 0, 0, 0, 0, 0, 0, 0, 0, 0, 0, 0, 0, 0, 0, 0, 0, 1, 0, 0, 0, 0, 0, 0, 0,
    0, 0, 0, 0, 0, 0, 0, 0, 0, 0, 0, 0,
];

/// `mem 7 0x100000 32512`.
pub(crate) const CONVENTIONAL: [u8; 60] = [
    b'G', b'M', b'A', b'P', 40, 0, 0, 0, 1, 0, 0, 0, 1, 0, 0, 0, // the header
    7, 0, 0, 0, 0, 0, 0, 0, 0, 0, 16, 0, 0, 0, 0, 0, 0, 0, 0, 0, 0, 0, 0, 0, 0, 127, 0, 0, 0, 0, 0,
    0, 0, 0, 0, 0, 0, 0, 0, 0, 0, 0, 0, 0,
];

/// Whether a script of one processor writes this text with these options, on a thread and by turns, and makes so many entries.
pub(crate) fn tells_with<R: Threads + Wait + Sync>(
    rt: &R,
    alloc: Global,
    options: &str,
    map: &[u8],
    script: &[u8],
    text: &[u8],
    entries: u64,
) -> Result<bool, AllocError> {
    let words = format!(in alloc; "run {options} A s0")?;
    let files = files_of(alloc, b"", map, script, b"", &[])?;
    let mut ports = ports_failing(alloc, &[])?;
    let status = ran(rt, alloc, words.as_str(), files, &mut ports, text)?;
    let words = format!(in alloc; "turns O {options} A s0")?;
    let files = files_of(alloc, b"", map, script, b"", &[])?;
    let out = MemSink::new(alloc, Vec::new(alloc));
    let ended = turned(alloc, words.as_str(), files, out, &[], text)?;
    Ok(status == Some(0) && ended == Some((0, entries)))
}

/// The same without a pool.
fn tells<R: Threads + Wait + Sync>(
    rt: &R,
    alloc: Global,
    map: &[u8],
    script: &[u8],
    text: &[u8],
    entries: u64,
) -> Result<bool, AllocError> {
    tells_with(rt, alloc, "--slots 0", map, script, text, entries)
}

#[test]
fn blocks_that_wait(rt: HostRuntime) -> Result<(), Fail> {
    let alloc = rt.alloc();
    let script = b"alloc a 0\n";
    let text = b"cpu 0\n1 ok 0x0\npages\n0x0-0x600000 accepted\n0x600000-0xc00000 pending\nend\n";
    assert!(rt; tells(&rt, alloc, &MAP, script, text, 3)?);
    let script = b"alloc a 0\nload a 4092\nalloc b 10\nload b 4194300\nload b 0\n";
    let text =
        b"cpu 0\n1 ok 0x0\n2 ok 0000000000000000 accepted\n3 ok 0x400000\n4 ok 0000000000000000 accepted\n5 ok 0000000000000000\npages\n0x0-0xa00000 accepted\n0xa00000-0xc00000 pending\nend\n";
    assert!(rt; tells(&rt, alloc, &MAP, script, text, 9)?);
    Ok(())
}

#[test]
fn a_free_block_before_one_that_waits(rt: HostRuntime) -> Result<(), Fail> {
    let alloc = rt.alloc();
    let script = b"alloc a 10\nfree a\nalloc b 3\nalloc c 10\nfree b\nalloc d 10\n";
    let text =
        b"cpu 0\n1 ok 0x0\n2 ok\n3 ok 0x0\n4 ok 0x400000\n5 ok\n6 ok 0x0\npages\n0x0-0xa00000 accepted\n0xa00000-0xc00000 pending\nend\n";
    assert!(rt; tells(&rt, alloc, &MAP, script, text, 10)?);
    Ok(())
}

#[test]
fn one_page_and_none_behind_it(rt: HostRuntime) -> Result<(), Fail> {
    let alloc = rt.alloc();
    let script = b"alloc a 0\nload a 4092\nalloc b 0\nfree a\nalloc b 0\n";
    let text =
        b"cpu 0\n1 ok 0x0\n2 ok 0000000000000000 outside\n3 noblock\n4 ok\n5 ok 0x0\npages\n0x0-0x1000 accepted\nend\n";
    assert!(rt; tells(&rt, alloc, &ONE_PAGE, script, text, 5)?);
    Ok(())
}

#[test]
fn commands_that_are_refused(rt: HostRuntime) -> Result<(), Fail> {
    let alloc = rt.alloc();
    let script =
        b"alloc a 0\nalloc a 0\nfree b\nread b 0 0\nread a 0 0\nread a 4095 2\nfill a 0 0 1\nfill a 4096 1 1\nwrite a 4096 01\nload a 4096\nload b 0\nfree a\nfree a\n";
    let text =
        b"cpu 0\n1 ok 0x100000\n2 taken\n3 unknown\n4 unknown\n5 zero\n6 range\n7 zero\n8 range\n9 range\n10 range\n11 unknown\n12 ok\n13 unknown\npages\n0x100000-0x8000000 accepted\nend\n";
    assert!(rt; tells(&rt, alloc, &CONVENTIONAL, script, text, 13)?);
    Ok(())
}

#[test]
fn bytes_that_the_next_owner_does_not_see(rt: HostRuntime) -> Result<(), Fail> {
    let alloc = rt.alloc();
    let script =
        b"alloc a 0\nwrite a 4094 0102\nread a 4093 3\nload a 4093\nfill a 1 2 255\nread a 0 4\nfree a\nalloc b 0\nread b 4093 3\nread b 0 4\n";
    let text =
        b"cpu 0\n1 ok 0x100000\n2 ok\n3 ok 000102\n4 ok 0001020000000000 accepted\n5 ok\n6 ok 00ffff00\n7 ok\n8 ok 0x100000\n9 ok 000000\n10 ok 00000000\npages\n0x100000-0x8000000 accepted\nend\n";
    assert!(rt; tells(&rt, alloc, &CONVENTIONAL, script, text, 10)?);
    Ok(())
}

#[test]
fn a_block_whose_acceptance_stops_waits_again(rt: HostRuntime) -> Result<(), Fail> {
    let alloc = rt.alloc();
    let script = b"alloc a 0\nalloc a 0\n";
    let text =
        b"cpu 0\n1 module\n2 ok 0x0\npages\n0x0-0x600000 accepted\n0x600000-0xc00000 pending\nend\n";
    let files = files_of(alloc, b"", &MAP, script, b"", &[])?;
    let out = MemSink::new(alloc, Vec::new(alloc));
    let words = "turns O --slots 0 A s0";
    assert_eq!(rt;
        turned(alloc, words, files, out, &[1, 2], text)?,
        Some((0, 5))
    );
    Ok(())
}

#[test]
fn a_block_and_a_range_accepted_at_once(rt: HostRuntime) -> Result<(), Fail> {
    let alloc = rt.alloc();
    let (first, second) = (b"alloc a 10\n", b"accept 0x800000 0x1000\n");
    let text =
        b"cpu 0\n1 ok 0x0\ncpu 1\n1 ok 1\npages\n0x0-0x600000 accepted\n0x600000-0x800000 pending\n0x800000-0xa00000 accepted\n0xa00000-0xc00000 pending\nend\n";
    let files = files_of(alloc, b"", &MAP, first, second, &[])?;
    let mut ports = gate_ports(alloc)?;
    let status = ran(&rt, alloc, "run --slots 0 A s0 s1", files, &mut ports, text)?;
    assert_eq!(rt; status, Some(0));
    Ok(())
}

/// The orders of blocks, each with a place four bytes before its end.
const SIZES: [(u32, u32); 5] = [
    (10, 4_194_300),
    (0, 4092),
    (9, 2_097_148),
    (10, 4_194_300),
    (3, 32_764),
];

/// Those of blocks that are mapped.
const MAPPED_SIZES: [(u32, u32); 5] = [
    (6, 262_140),
    (0, 4092),
    (5, 131_068),
    (6, 262_140),
    (3, 32_764),
];

/// What the scripts of some processors do.
#[derive(Clone, Copy)]
pub(crate) enum Doing {
    /// They take blocks, write and read their ends, and give some of them back; there is no pool.
    Blocks,
    /// They map smaller blocks too, more than the four areas of the pool hold, and play device and host.
    Mappings,
}

/// The options of a guest.
fn options_of(doing: Doing) -> &'static str {
    match doing {
        Doing::Blocks => "--slots 0",
        Doing::Mappings => "--slots 512 --areas 4",
    }
}

/// The sizes of the blocks that are taken.
fn sizes_of(doing: Doing) -> [(u32, u32); 5] {
    match doing {
        Doing::Blocks => SIZES,
        Doing::Mappings => MAPPED_SIZES,
    }
}

/// The lines that map a block of a processor up to this place at most, move its bytes, mostly end the mapping, and read bytes back.
fn map_lines(
    text: &mut String,
    cpu: u32,
    number: u32,
    round: u32,
    end: u32,
) -> Result<(), AllocError>
    requires cpu { cpu < 8 }
    requires number { number < 6 }
    requires round { round < 1000 }
{
    let way = ["to", "from", "both"][((cpu + number + round) % 3) as usize];
    let len = (50_021 * cpu + 29_989 * number + 997 * round) % end.max(1);
    let place = 131_072 * cpu + 2048 * number;
    let digit = 1 + (cpu + 3 * number) % 9;
    writeln!(text, "map m{number} b{number} 1 {len} {way}")?;
    writeln!(text, "dwrite m{number} 0 0{digit}\nsyncdev m{number} 0 1")?;
    writeln!(text, "synccpu m{number} 0 1\nhostwrite {place} 0{digit}")?;
    writeln!(text, "hostread {place} 4\ndread m{number} 0 1")?;
    if (cpu + number + round) % 4 != 0 {
        writeln!(text, "unmap m{number}")?;
    }
    writeln!(text, "read b{number} 0 4")?;
    Ok(())
}

/// The script of one of some processors.
fn script_of(alloc: Global, doing: Doing, cpu: u32, round: u32) -> Result<String, AllocError>
    requires cpu { cpu < 8 }
    requires round { round < 1000 }
{
    let mut text = String::new(alloc);
    for number in 0..6 {
        let (order, end) = sizes_of(doing)[((cpu + 3 * number + round) % 5) as usize];
        let digit = 1 + (7 * cpu + number) % 9;
        writeln!(text, "alloc b{number} {order}")?;
        writeln!(text, "read b{number} {end} 4")?;
        writeln!(text, "write b{number} {end} 0{digit}")?;
        writeln!(text, "fill b{number} 4 3 {digit}")?;
        writeln!(text, "load b{number} {end}\nload b{number} 0")?;
        if let Doing::Mappings = doing {
            map_lines(&mut text, cpu, number, round, end)?;
        }
        if (cpu + number + round) % 3 != 0 {
            writeln!(text, "free b{number}")?;
        }
    }
    Ok(text)
}

/// The files `O`, `A`, and `s0`, `s1` and so on, a script for each processor.
fn guest_files(
    alloc: Global,
    doing: Doing,
    order: &[u8],
    cpus: u32,
    round: u32,
) -> Result<MemFiles, AllocError>
    requires cpus { cpus ≤ 8 }
    requires round { round < 1000 }
{
    let mut files = Vec::new(alloc);
    files.push(named(alloc, "O", order)?)?;
    files.push(named(alloc, "A", &MAP)?)?;
    for cpu in 0..cpus {
        let script = script_of(alloc, doing, cpu, round)?;
        files.push((format!(in alloc; "s{cpu}")?, script.into_bytes()))?;
    }
    Ok(MemFiles::new(alloc, files, Vec::new(alloc)))
}

/// The words of a guest: these, its options, the map, and the names of the scripts.
fn guest_words(
    alloc: Global,
    command: &str,
    doing: Doing,
    cpus: u32,
) -> Result<Vec<String>, AllocError> {
    let options = options_of(doing);
    let line = format!(in alloc; "{command} {options} A")?;
    let mut words = words_of(alloc, line.as_str())?;
    for cpu in 0..cpus {
        words.push(format!(in alloc; "s{cpu}")?)?;
    }
    Ok(words)
}

/// The calls of each port that fail in a round: in every other one none, and never one of the two that boot makes with the pool.
fn failing_in(round: u32) -> &'static [u64] {
    match round % 4 {
        1 => &[3, 4, 8, 300],
        3 => &[4, 5, 6, 516, 517],
        _ => &[],
    }
}

/// The text that the processors of a run write by turns in its order.
fn text_again(
    alloc: Global,
    doing: Doing,
    run: &Recorded,
    cpus: u32,
    round: u32,
) -> Result<Option<MemSink>, AllocError>
    requires cpus { cpus ≤ 8 }
    requires round { round < 1000 }
{
    let order = print_order(alloc, &order_of(alloc, run)?)?;
    let words = guest_words(alloc, "turns O", doing, cpus)?;
    let mut files = guest_files(alloc, doing, order.as_slice(), cpus, round)?;
    let mut out = MemSink::new(alloc, Vec::new(alloc));
    let mut ports = ports_failing(alloc, failing_in(round))?;
    let ended = plain(alloc, words.as_slice(), &mut files, &mut out, &mut ports);
    Ok((ended.status == 0).then_some(out))
}

/// Whether processors on threads, of whose ports some calls fail, write what they write by turns in the order of this run.
fn agrees<R: Threads + Wait + Sync>(
    rt: &R,
    alloc: Global,
    doing: Doing,
    cpus: u32,
    round: u32,
) -> Result<bool, AllocError>
    requires cpus { cpus ≤ 8 }
    requires round { round < 1000 }
{
    let words = guest_words(alloc, "run", doing, cpus)?;
    let mut files = guest_files(alloc, doing, b"", cpus, round)?;
    let mut out = MemSink::new(alloc, Vec::new(alloc));
    let mut ports = ports_failing(alloc, failing_in(round))?;
    let ended = top(
        rt,
        alloc,
        words.as_slice(),
        &mut files,
        &mut out,
        &mut ports,
    );
    let Some(run) = &ended.run else {
        return Ok(false);
    };
    match text_again(alloc, doing, run, cpus, round)? {
        Some(again) => Ok(out.written() == again.written()),
        None => Ok(false),
    }
}

/// Whether so many runs of this many processors agree with turns.
pub(crate) fn agree<R: Threads + Wait + Sync>(
    rt: &R,
    alloc: Global,
    doing: Doing,
    cpus: u32,
    rounds: u32,
) -> Result<bool, AllocError>
    requires cpus { cpus ≤ 8 }
    requires rounds { rounds ≤ 1000 }
{
    for round in 0..rounds {
        if !agrees(rt, alloc, doing, cpus, round)? {
            return Ok(false);
        }
    }
    Ok(true)
}

#[test]
fn two_processors_whose_blocks_meet(rt: HostRuntime) -> Result<(), Fail> {
    assert!(rt; agree(&rt, rt.alloc(), Doing::Blocks, 2, 40)?);
    Ok(())
}

#[test]
fn eight_processors_whose_blocks_meet(rt: HostRuntime) -> Result<(), Fail> {
    assert!(rt; agree(&rt, rt.alloc(), Doing::Blocks, 8, 40)?);
    Ok(())
}
