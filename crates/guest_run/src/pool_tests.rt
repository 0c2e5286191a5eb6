//! Guests that map blocks through the pool.
use crate::block_tests::{CONVENTIONAL, Doing, agree, tells_with};
use crate::tests::{MAP, files_of, ports_failing, ran, turned};
use guest_io::MemSink;
use std::alloc::{AllocError, Global};
use std::fmt::Write;
use std::test::Fail;

/// One area of 128 slots.
const ONE_AREA: &str = "--slots 128 --areas 1";

/// A map file of these descriptors, each of them a type, a start in bytes and a number of pages, without host records.
fn map_of(alloc: Global, descriptors: &[(u32, u64, u64)]) -> Result<Vec<u8>, AllocError> {
    let mut bytes = Vec::from_slice(alloc, &MAP[..12])?;
    bytes.extend_from_slice(&(descriptors.len() as u64).to_le_bytes()[..4])?;
    for (kind, start, pages) in descriptors {
        bytes.extend_from_slice(&u64::from(*kind).to_le_bytes())?;
        bytes.extend_from_slice(&start.to_le_bytes())?;
        bytes.extend_from_slice(&[0; 8])?;
        bytes.extend_from_slice(&pages.to_le_bytes())?;
        bytes.extend_from_slice(&[0; 8])?;
    }
    bytes.extend_from_slice(&[0; 4])?;
    Ok(bytes)
}

#[test]
fn mappings_of_each_length(rt: HostRuntime) -> Result<(), Fail> {
    let alloc = rt.alloc();
    let script =
        b"alloc a 7\nmap m a 0 1 to\nunmap m\nmap m a 0 2048 to\nunmap m\nmap m a 0 2049 to\nunmap m\nmap m a 0 262144 to\nunmap m\nmap m a 0 262145 to\n";
    let text =
        b"cpu 0\n1 ok 0x180000\n2 ok 0x100000\n3 ok\n4 ok 0x100800\n5 ok\n6 ok 0x101000\n7 ok\n8 ok 0x100000\n9 ok\n10 toolong\npages\n0x100000-0x140000 shared\n0x140000-0x8000000 accepted\nend\n";
    assert!(rt; tells_with(&rt, alloc, ONE_AREA, &CONVENTIONAL, script, text, 10)?);
    Ok(())
}

#[test]
fn a_mapping_that_keeps_its_place_in_the_page(rt: HostRuntime) -> Result<(), Fail> {
    let alloc = rt.alloc();
    let script = b"alloc a 6\nmap m a 0xfff 1 to 4095\n";
    let text =
        b"cpu 0\n1 ok 0x140000\n2 ok 0x100fff\npages\n0x100000-0x140000 shared\n0x140000-0x8000000 accepted\nend\n";
    assert!(rt; tells_with(&rt, alloc, ONE_AREA, &CONVENTIONAL, script, text, 2)?);
    Ok(())
}

#[test]
fn an_area_that_is_full(rt: HostRuntime) -> Result<(), Fail> {
    let alloc = rt.alloc();
    let mut script = String::from_str(alloc, "alloc a 0\n")?;
    let mut text = String::from_str(alloc, "cpu 0\n1 ok 0x140000\n")?;
    for number in 0..128u32 {
        writeln!(script, "map m{number} a 0 1 to")?;
        let (line, address) = (number + 2, 0x10_0000 + 0x800 * number);
        writeln!(text, "{line} ok 0x{address:x}")?;
    }
    script.push_str("map n a 0 1 to\nunmap m4\nmap n a 0 1 to\n")?;
    text.push_str("130 full\n131 ok\n132 ok 0x102000\npages\n")?;
    text.push_str("0x100000-0x140000 shared\n0x140000-0x8000000 accepted\nend\n")?;
    let (script, text) = (script.as_bytes(), text.as_bytes());
    assert!(rt; tells_with(&rt, alloc, ONE_AREA, &CONVENTIONAL, script, text, 132)?);
    Ok(())
}

#[test]
fn a_look_in_each_area(rt: HostRuntime) -> Result<(), Fail> {
    let alloc = rt.alloc();
    let script = b"alloc a 7\nmap m a 0 262144 to\nmap n a 0 1 to\n";
    let text =
        b"cpu 0\n1 ok 0x180000\n2 ok 0x100000\n3 ok 0x140000\npages\n0x100000-0x180000 shared\n0x180000-0x8000000 accepted\nend\n";
    let pool = "--slots 256 --areas 2";
    assert!(rt; tells_with(&rt, alloc, pool, &CONVENTIONAL, script, text, 4)?);
    let script = b"alloc a 7\nmap m a 0 262144 to\nmap n a 0 262144 to\nmap o a 0 1 to\n";
    let text =
        b"cpu 0\n1 ok 0x180000\n2 ok 0x100000\n3 ok 0x140000\n4 full\npages\n0x100000-0x180000 shared\n0x180000-0x8000000 accepted\nend\n";
    assert!(rt; tells_with(&rt, alloc, pool, &CONVENTIONAL, script, text, 6)?);
    Ok(())
}

#[test]
fn bytes_that_the_device_writes(rt: HostRuntime) -> Result<(), Fail> {
    let alloc = rt.alloc();
    let script =
        b"alloc a 0\nwrite a 0 0102030405\nmap m a 0 5 from\ndwrite m 1 aabbcc\nunmap m\nread a 0 5\nmap m a 0 5 from\ndwrite m 1 ffffff\nunmap m skip\nread a 0 5\n";
    let text =
        b"cpu 0\n1 ok 0x140000\n2 ok\n3 ok 0x100000\n4 ok\n5 ok\n6 ok 01aabbcc05\n7 ok 0x100800\n8 ok\n9 ok\n10 ok 01aabbcc05\npages\n0x100000-0x140000 shared\n0x140000-0x8000000 accepted\nend\n";
    assert!(rt; tells_with(&rt, alloc, ONE_AREA, &CONVENTIONAL, script, text, 10)?);
    Ok(())
}

#[test]
fn bytes_that_the_host_writes(rt: HostRuntime) -> Result<(), Fail> {
    let alloc = rt.alloc();
    let script =
        b"alloc a 0\nwrite a 0 5a\nmap m a 0 1 to\nunmap m\nhostwrite 2148 ee\nmap n a 0 1 to\nhostread 2147 3\nhostread 0 1\nhostread 262143 2\n";
    let text =
        b"cpu 0\n1 ok 0x140000\n2 ok\n3 ok 0x100000\n4 ok\n5 ok\n6 ok 0x100800\n7 ok 00ee00\n8 ok 5a\n9 range\npages\n0x100000-0x140000 shared\n0x140000-0x8000000 accepted\nend\n";
    assert!(rt; tells_with(&rt, alloc, ONE_AREA, &CONVENTIONAL, script, text, 9)?);
    Ok(())
}

#[test]
fn commands_of_the_pool_without_one(rt: HostRuntime) -> Result<(), Fail> {
    let alloc = rt.alloc();
    let script =
        b"alloc a 0\nmap m a 0 1 to\nmap m a 0 0 to\nmap m a 4095 2 to\nmap m b 0 1 to\nhostread 0 1\nhostread 0 0\nhostwrite 0 01\nunmap m\nfree a\n";
    let text =
        b"cpu 0\n1 ok 0x100000\n2 nopool\n3 zero\n4 range\n5 unknown\n6 nopool\n7 nopool\n8 nopool\n9 unknown\n10 ok\npages\n0x100000-0x8000000 accepted\nend\n";
    assert!(rt; tells_with(&rt, alloc, "--slots 0", &CONVENTIONAL, script, text, 10)?);
    Ok(())
}

#[test]
fn commands_on_mappings_that_are_refused(rt: HostRuntime) -> Result<(), Fail> {
    let alloc = rt.alloc();
    let script =
        b"alloc a 0\nmap m a 0 1 to\nfree a\nmap m a 0 1 to\nunmap m\nunmap m\nfree a\nsyncdev m 0 1\nalloc a 0\nmap m a 0 2 both\nsynccpu m 0 0\ndread m 1 2\ndwrite m 2 00\nhostread 262144 1\nhostread 0 0\n";
    let text =
        b"cpu 0\n1 ok 0x140000\n2 ok 0x100000\n3 mapped\n4 taken\n5 ok\n6 unknown\n7 ok\n8 unknown\n9 ok 0x140000\n10 ok 0x100800\n11 zero\n12 range\n13 range\n14 range\n15 zero\npages\n0x100000-0x140000 shared\n0x140000-0x8000000 accepted\nend\n";
    assert!(rt; tells_with(&rt, alloc, ONE_AREA, &CONVENTIONAL, script, text, 15)?);
    Ok(())
}

#[test]
fn copies_that_a_direction_asks_for(rt: HostRuntime) -> Result<(), Fail> {
    let alloc = rt.alloc();
    let script =
        b"alloc a 0\nwrite a 0 0102\nmap m a 0 2 both\nwrite a 0 aa\nsyncdev m 0 1\ndread m 0 2\ndwrite m 1 bb\nsynccpu m 1 1\nread a 0 2\nunmap m\nmap n a 0 2 to\ndwrite n 0 ff\nsynccpu n 0 2\nread a 0 2\n";
    let text =
        b"cpu 0\n1 ok 0x140000\n2 ok\n3 ok 0x100000\n4 ok\n5 ok\n6 ok aa02\n7 ok\n8 ok\n9 ok aabb\n10 ok\n11 ok 0x100800\n12 ok\n13 ok\n14 ok aabb\npages\n0x100000-0x140000 shared\n0x140000-0x8000000 accepted\nend\n";
    assert!(rt; tells_with(&rt, alloc, ONE_AREA, &CONVENTIONAL, script, text, 14)?);
    Ok(())
}

#[test]
fn a_guest_with_all_defaults(rt: HostRuntime) -> Result<(), Fail> {
    let alloc = rt.alloc();
    let map = map_of(
        alloc,
        &[
            (7, 0x0, 160),
            (0, 0xa_0000, 96),
            (7, 0x10_0000, 32_512),
            (15, 0x800_0000, 491_520),
            (15, 0x1_0000_0000, 524_288),
        ],
    )?;
    let script =
        b"alloc buf 0\nwrite buf 0 68656c6c6f\nmap rx buf 0 1500 from\ndwrite rx 0 776f726c64\nunmap rx\nread buf 0 5\nalloc big 10\naccept 0x100000000 0x40000000\n";
    let text =
        b"cpu 0\n1 ok 0x80000\n2 ok\n3 ok 0x100000\n4 ok\n5 ok\n6 ok 776f726c64\n7 ok 0x4400000\n8 ok 513\npages\n0x0-0xa0000 accepted\n0x100000-0x4100000 shared\n0x4100000-0x8000000 accepted\n0x8000000-0x80000000 pending\n0x100000000-0x140200000 accepted\n0x140200000-0x180000000 pending\nend\n";
    let files = files_of(alloc, b"", map.as_slice(), script, b"", &[])?;
    let mut ports = ports_failing(alloc, &[])?;
    assert_eq!(rt;
        ran(&rt, alloc, "run A s0", files, &mut ports, text)?,
        Some(0)
    );
    Ok(())
}

#[test]
fn pools_without_room(rt: HostRuntime) -> Result<(), Fail> {
    let alloc = rt.alloc();
    let text = b"refused: pool\n";
    for words in ["turns O A s0", "turns O A --slots 8192 s0"] {
        let files = files_of(alloc, b"", &MAP, b"query 0 1\n", b"", &[])?;
        let out = MemSink::new(alloc, Vec::new(alloc));
        assert_eq!(rt; turned(alloc, words, files, out, &[], text)?, Some((3, 0)));
    }
    let files = files_of(alloc, b"", &MAP, b"jump\n", b"", &[])?;
    let out = MemSink::new(alloc, Vec::new(alloc));
    let text = b"refused: s0: line 1 word\n";
    assert_eq!(rt;
        turned(alloc, "turns O A s0", files, out, &[], text)?,
        Some((3, 0))
    );
    Ok(())
}

/// `mem 15 0x400000 2048` and `host 0x400000 0x200000 0`.
const PENDING: [u8; 80] = [
    b'G', b'M', b'A', b'P', 40, 0, 0, 0, 1, 0, 0, 0, 1, 0, 0, 0, // the header
    15, 0, 0, 0, 0, 0, 0, 0, 0, 0, 64, 0, 0, 0, 0, 0, 0, 0, 0, 0, 0, 0, 0, 0, 0, 8, 0, 0, 0, 0, 0,
    0, 0, 0, 0, 0, 0, 0, 0, 0, 1, 0, 0, 0, // one host record
    0, 0, 64, 0, 0, 0, 0, 0, 0, 0, 32, 0, 0, 0, 0, 0, 0, 0, 0, 0,
];

#[test]
fn pools_that_the_module_does_not_give(rt: HostRuntime) -> Result<(), Fail> {
    let alloc = rt.alloc();
    let words = "turns O --slots 128 A s0";
    // the third call is the second small one, and the 514th shares the pool
    for failing in [3, 514] {
        let files = files_of(alloc, b"", &PENDING, b"", b"", &[])?;
        let out = MemSink::new(alloc, Vec::new(alloc));
        let ended = turned(alloc, words, files, out, &[failing], b"failed: boot\n")?;
        assert_eq!(rt; ended, Some((7, 0)));
    }
    let files = files_of(alloc, b"", &PENDING, b"", b"", &[])?;
    let out = MemSink::new(alloc, Vec::new(alloc));
    let text =
        b"cpu 0\npages\n0x400000-0x440000 shared\n0x440000-0xa00000 accepted\n0xa00000-0xc00000 pending\nend\n";
    assert_eq!(rt; turned(alloc, words, files, out, &[1], text)?, Some((0, 0)));
    Ok(())
}

#[test]
fn two_processors_in_two_areas(rt: HostRuntime) -> Result<(), Fail> {
    let alloc = rt.alloc();
    let (first, second) = (b"hostread 0 1\nhostread 262143 2\n", b"hostread 262144 1\n");
    let text =
        b"cpu 0\n1 ok 00\n2 range\ncpu 1\n1 ok 00\npages\n0x100000-0x180000 shared\n0x180000-0x8000000 accepted\nend\n";
    let files = files_of(alloc, b"0 1\n", &CONVENTIONAL, first, second, &[])?;
    let out = MemSink::new(alloc, Vec::new(alloc));
    let words = "turns O --slots 256 --areas 2 A s0 s1";
    assert_eq!(rt; turned(alloc, words, files, out, &[], text)?, Some((0, 3)));
    Ok(())
}

#[test]
fn bytes_of_another_processor(rt: HostRuntime) -> Result<(), Fail> {
    let alloc = rt.alloc();
    let first = b"alloc a 0\nwrite a 0 01\nmap m a 0 1 from\nunmap m\nread a 0 1\n";
    let text =
        b"cpu 0\n1 ok 0x140000\n2 ok\n3 ok 0x100000\n4 ok\n5 ok ee\ncpu 1\n1 ok\npages\n0x100000-0x140000 shared\n0x140000-0x8000000 accepted\nend\n";
    let files = files_of(
        alloc,
        b"0 0 0 1 0 0\n",
        &CONVENTIONAL,
        first,
        b"hostwrite 0 ee\n",
        &[],
    )?;
    let out = MemSink::new(alloc, Vec::new(alloc));
    let words = "turns O --slots 128 --areas 1 A s0 s1";
    assert_eq!(rt; turned(alloc, words, files, out, &[], text)?, Some((0, 6)));
    Ok(())
}

#[test]
fn two_processors_whose_mappings_meet(rt: HostRuntime) -> Result<(), Fail> {
    assert!(rt; agree(&rt, rt.alloc(), Doing::Mappings, 2, 40)?);
    Ok(())
}

#[test]
fn eight_processors_whose_mappings_meet(rt: HostRuntime) -> Result<(), Fail> {
    assert!(rt; agree(&rt, rt.alloc(), Doing::Mappings, 8, 100)?);
    Ok(())
}
