ghost use Rattle.std.specs.Prelude.{◌≡◌, ◌≤◌, [], length, All, IfOk};

use super::*;
use gate_port::GatePort;
use guest_base::limits::MAX_CPUS;
use guest_io::{MemFiles, MemSink};
use page_module::{MemPort, Port};
use std::alloc::{AllocError, Global};
use std::sync::Wait;
use std::test::Fail;
use std::thread::Threads;

/// `mem 7 0x0 1024` and `mem 15 0x400000 2048`.
pub(crate) const MAP: [u8; 100] = [
    b'G', b'M', b'A', b'P', 40, 0, 0, 0, 1, 0, 0, 0, 2, 0, 0, 0, // the header
    7, 0, 0, 0, 0, 0, 0, 0, 0, 0, 0, 0, 0, 0, 0, 0, 0, 0, 0, 0, 0, 0, 0, 0, 0, 4, 0, 0, 0, 0, 0, 0,
    0, 0, 0, 0, 0, 0, 0, 0, 15, 0, 0, 0, 0, 0, 0, 0, 0, 0, 64, 0, 0, 0, 0, 0, 0, 0, 0, 0, 0, 0, 0,
    0, 0, 8, 0, 0, 0, 0, 0, 0, 0, 0, 0, 0, 0, 0, 0, 0, 0, 0, 0, 0,
];

/// `mem 7 0x0 1024`, `mem 15 0x400000 1023` and `host 0x400000 0x200000 0`.
const EARLY_MAP: [u8; 120] = [
    b'G', b'M', b'A', b'P', 40, 0, 0, 0, 1, 0, 0, 0, 2, 0, 0, 0, // the header
    7, 0, 0, 0, 0, 0, 0, 0, 0, 0, 0, 0, 0, 0, 0, 0, 0, 0, 0, 0, 0, 0, 0, 0, 0, 4, 0, 0, 0, 0, 0, 0,
    0, 0, 0, 0, 0, 0, 0, 0, 15, 0, 0, 0, 0, 0, 0, 0, 0, 0, 64, 0, 0, 0, 0, 0, 0, 0, 0, 0, 0, 0, 0,
    0, 255, 3, 0, 0, 0, 0, 0, 0, 0, 0, 0, 0, 0, 0, 0, 0, 1, 0, 0, 0, // one host record
    0, 0, 64, 0, 0, 0, 0, 0, 0, 0, 32, 0, 0, 0, 0, 0, 0, 0, 0, 0,
];

/// A table of two units of 2 MiB from 4 MiB on, of which the first is unaccepted.
const TABLE: [u8; 25] = [
    1, 0, 0, 0, 0, 0, 32, 0, 0, 0, 64, 0, 0, 0, 0, 0, 1, 0, 0, 0, 0, 0, 0, 0, 1,
];

/// A port for each processor, of which the calls with these numbers fail.
pub(crate) fn ports_failing(alloc: Global, failing: &[u64]) -> Result<Vec<MemPort>, AllocError>
    ensures count { IfOk result (λ ports. length ports.items ≡ 64) }
    ensures unmade { IfOk result (λ ports.
        All (λ port. ⟦<MemPort as Port>⟧.made port ≡ []) ports.items) }
{
    let mut ports = Vec::new(alloc);
    for cpu in 0..MAX_CPUS {
        ports.push(MemPort::new(alloc, failing.to_vec(alloc)?))?;
    }
    Ok(ports)
}

/// Pairs of ports, each of which fails where it does not see the other one asked meanwhile.
pub(crate) fn gate_ports(alloc: Global) -> Result<Vec<GatePort>, AllocError>
    ensures count { IfOk result (λ ports. length ports.items ≡ 64) }
    ensures unmade { IfOk result (λ ports.
        All (λ port. ⟦<GatePort as Port>⟧.made port ≡ []) ports.items) }
{
    let mut ports = Vec::new(alloc);
    for pair in 0..MAX_CPUS / 2 {
        let (first, second) = GatePort::pair(alloc)?;
        ports.push(first)?;
        ports.push(second)?;
    }
    Ok(ports)
}

pub(crate) fn named(
    alloc: Global,
    name: &str,
    content: &[u8],
) -> Result<(String, Vec<u8>), AllocError> {
    Ok((String::from_str(alloc, name)?, content.to_vec(alloc)?))
}

/// The files `O`, `A`, `T`, `s0` and `s1`, of which the reads with these numbers fail.
pub(crate) fn files_of(
    alloc: Global,
    order: &[u8],
    map: &[u8],
    first: &[u8],
    second: &[u8],
    failing: &[u64],
) -> Result<MemFiles, AllocError> {
    let mut files = Vec::new(alloc);
    files.push(named(alloc, "O", order)?)?;
    files.push(named(alloc, "A", map)?)?;
    files.push(named(alloc, "T", &TABLE)?)?;
    files.push(named(alloc, "s0", first)?)?;
    files.push(named(alloc, "s1", second)?)?;
    Ok(MemFiles::new(alloc, files, failing.to_vec(alloc)?))
}

pub(crate) fn words_of(alloc: Global, line: &str) -> Result<Vec<String>, AllocError> {
    let mut words = Vec::new(alloc);
    for word in line.split(' ') {
        words.push(String::from_str(alloc, word)?)?;
    }
    Ok(words)
}

/// The status of a run by turns on these ports, where it writes this text, and how many entries it has.
pub(crate) fn turned(
    alloc: Global,
    line: &str,
    mut files: MemFiles,
    mut out: MemSink,
    calls: &[u64],
    text: &[u8],
) -> Result<Option<(u8, u64)>, AllocError> {
    let words = words_of(alloc, line)?;
    let mut ports = ports_failing(alloc, calls)?;
    let ended = plain(alloc, words.as_slice(), &mut files, &mut out, &mut ports);
    let entries = match &ended.run {
        Some(run) => run.entries.len(),
        None => 0,
    };
    Ok((out.written() == text).then_some((ended.status, entries)))
}

/// The status of a run on these ports, where it writes this text.
pub(crate) fn ran<R: Threads + Wait + Sync, P: Port + Send>(
    rt: &R,
    alloc: Global,
    line: &str,
    mut files: MemFiles,
    ports: &mut Vec<P>,
    text: &[u8],
) -> Result<Option<u8>, AllocError>
    requires count { 64 ≤ length ports.old.items }
    requires unmade { All (λ port. P.made port ≡ []) ports.old.items }
{
    let words = words_of(alloc, line)?;
    let mut out = MemSink::new(alloc, Vec::new(alloc));
    let ended = top(rt, alloc, words.as_slice(), &mut files, &mut out, ports);
    Ok((out.written() == text).then_some(ended.status))
}

#[test]
fn a_guest(rt: HostRuntime) -> Result<(), Fail> {
    let alloc = rt.alloc();
    let script =
        b"accept 0x800000 0x400000\nquery 0xffffffffff 0x1\nquery 0xffffffffff 0x2\naccept 0x0 0x0\n";
    let text =
        b"cpu 0\n1 ok 2\n2 ok accepted\n3 range\n4 zero\npages\n0x0-0x400000 accepted\n0x400000-0x800000 pending\n0x800000-0xc00000 accepted\nend\n";
    let files = files_of(alloc, b"", &MAP, script, b"", &[])?;
    let mut ports = ports_failing(alloc, &[])?;
    let status = ran(&rt, alloc, "run --slots 0 A s0", files, &mut ports, text)?;
    assert_eq!(rt; status, Some(0));
    let files = files_of(alloc, b"", &MAP, script, b"", &[])?;
    let mut ports = ports_failing(alloc, &[])?;
    let status = ran(
        &rt,
        alloc,
        "turns O --slots 0 A s0",
        files,
        &mut ports,
        text,
    )?;
    assert_eq!(rt; status, Some(0));
    Ok(())
}

#[test]
fn two_processors_whose_units_meet(rt: HostRuntime) -> Result<(), Fail> {
    let alloc = rt.alloc();
    let (first, second) = (b"accept 0x400000 0x200000\n", b"accept 0x600000 0x1000\n");
    let text =
        b"cpu 0\n1 ok 2\ncpu 1\n1 ok 0\npages\n0x0-0x800000 accepted\n0x800000-0xc00000 pending\nend\n";
    let words = "turns O --slots 0 A s0 s1";
    let files = files_of(alloc, b"0 1 0 1\n", &MAP, first, second, &[])?;
    let out = MemSink::new(alloc, Vec::new(alloc));
    assert_eq!(rt; turned(alloc, words, files, out, &[], text)?, Some((0, 3)));
    let text =
        b"cpu 0\n1 ok 1\ncpu 1\n1 ok 1\npages\n0x0-0x800000 accepted\n0x800000-0xc00000 pending\nend\n";
    let files = files_of(alloc, b"1 1 0 0\n", &MAP, first, second, &[])?;
    let out = MemSink::new(alloc, Vec::new(alloc));
    assert_eq!(rt; turned(alloc, words, files, out, &[], text)?, Some((0, 4)));
    Ok(())
}

#[test]
fn two_processors_that_accept_at_once(rt: HostRuntime) -> Result<(), Fail> {
    let alloc = rt.alloc();
    let (first, second) = (b"accept 0x400000 0x1000\n", b"accept 0x800000 0x1000\n");
    let text =
        b"cpu 0\n1 ok 1\ncpu 1\n1 ok 1\npages\n0x0-0x600000 accepted\n0x600000-0x800000 pending\n0x800000-0xa00000 accepted\n0xa00000-0xc00000 pending\nend\n";
    let files = files_of(alloc, b"", &MAP, first, second, &[])?;
    let mut ports = gate_ports(alloc)?;
    let status = ran(&rt, alloc, "run --slots 0 A s0 s1", files, &mut ports, text)?;
    assert_eq!(rt; status, Some(0));
    Ok(())
}

#[test]
fn a_guest_by_a_table(rt: HostRuntime) -> Result<(), Fail> {
    let alloc = rt.alloc();
    let script = b"query 0x400000 0x1000\nquery 0x600000 0x1000\naccept 0x400000 0x1000\n";
    let text =
        b"cpu 0\n1 ok unaccepted\n2 ok accepted\n3 ok 1\npages\n0x0-0xc00000 accepted\nend\n";
    let files = files_of(alloc, b"", &MAP, script, b"", &[])?;
    let out = MemSink::new(alloc, Vec::new(alloc));
    let words = "turns --table T O --slots 0 A s0";
    assert_eq!(rt; turned(alloc, words, files, out, &[], text)?, Some((0, 4)));
    Ok(())
}

#[test]
fn calls_that_fail(rt: HostRuntime) -> Result<(), Fail> {
    let alloc = rt.alloc();
    let script = b"accept 0x400000 0x1000\naccept 0x400000 0x1000\n";
    let text =
        b"cpu 0\n1 module\n2 ok 1\npages\n0x0-0x600000 accepted\n0x600000-0xc00000 pending\nend\n";
    let words = "turns O --slots 0 A s0";
    let files = files_of(alloc, b"", &MAP, script, b"", &[])?;
    let out = MemSink::new(alloc, Vec::new(alloc));
    assert_eq!(rt;
        turned(alloc, words, files, out, &[1, 2], text)?,
        Some((0, 4))
    );
    let text = b"failed: boot\n";
    let files = files_of(alloc, b"", &EARLY_MAP, script, b"", &[])?;
    let out = MemSink::new(alloc, Vec::new(alloc));
    assert_eq!(rt; turned(alloc, words, files, out, &[3], text)?, Some((7, 0)));
    Ok(())
}

#[test]
fn files_and_puts_that_fail(rt: HostRuntime) -> Result<(), Fail> {
    let alloc = rt.alloc();
    let (first, second) = (b"accept 0x400000 0x1000\n", b"share a\n");
    let words = "turns O --slots 0 A s0 s1";
    let files = files_of(alloc, b"", &MAP, first, second, &[])?;
    let out = MemSink::new(alloc, Vec::new(alloc));
    let text = b"refused: s1: later\n";
    assert_eq!(rt; turned(alloc, words, files, out, &[], text)?, Some((3, 0)));
    let files = files_of(alloc, b"", &MAP, first, second, &[4])?;
    let out = MemSink::new(alloc, Vec::new(alloc));
    let text = b"failed: read s1\n";
    assert_eq!(rt; turned(alloc, words, files, out, &[], text)?, Some((4, 0)));
    let files = files_of(alloc, b"", &MAP, first, b"", &[])?;
    let out = MemSink::new(alloc, vec![in alloc; 2]?);
    let text = b"cpu 0\n1 ok 1\n";
    assert_eq!(rt; turned(alloc, words, files, out, &[], text)?, Some((5, 2)));
    Ok(())
}

#[test]
fn words_that_are_refused(rt: HostRuntime) -> Result<(), Fail> {
    let alloc = rt.alloc();
    let text = b"refused: words\n";
    let files = files_of(alloc, b"", &MAP, b"", b"", &[])?;
    let mut ports = ports_failing(alloc, &[])?;
    let status = ran(&rt, alloc, "run --slots 0 A", files, &mut ports, text)?;
    assert_eq!(rt; status, Some(2));
    let files = files_of(alloc, b"", &MAP, b"", b"", &[])?;
    let out = MemSink::new(alloc, Vec::new(alloc));
    let ended = turned(alloc, "run --slots 0 A s0", files, out, &[], text)?;
    assert_eq!(rt; ended, Some((2, 0)));
    Ok(())
}

/// Runs two scripts by turns in this order, which is refused with this text.
fn refused_order(alloc: Global, order: &[u8], text: &[u8]) -> Result<bool, AllocError> {
    let script = b"accept 0x400000 0x1000\n";
    let files = files_of(alloc, order, &MAP, script, script, &[])?;
    let out = MemSink::new(alloc, Vec::new(alloc));
    let words = "turns O --slots 0 A s0 s1";
    Ok(turned(alloc, words, files, out, &[], text)? == Some((3, 0)))
}

#[test]
fn orders_that_are_refused(rt: HostRuntime) -> Result<(), Fail> {
    let alloc = rt.alloc();
    assert!(rt; refused_order(alloc, b"0 1 # 2\n 2\n", b"refused: O: word 3\n")?);
    assert!(rt; refused_order(alloc, b"0,1\n", b"refused: O: word 1\n")?);
    let mut turns = Vec::new(alloc);
    for turn in 0..16_777_217 {
        turns.extend_from_slice(b"0\n")?;
    }
    assert!(rt; refused_order(alloc, turns.as_slice(), b"refused: O: too many\n")?);
    let blanks = vec![in alloc; b' '; 67_108_865]?;
    assert!(rt; refused_order(alloc, blanks.as_slice(), b"refused: O: too long\n")?);
    Ok(())
}
