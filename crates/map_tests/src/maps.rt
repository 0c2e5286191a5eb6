use efi_map::{MapFault, read_map, write_map};
use event_core::{Descriptor, Descriptors, Hosts};
use guest_base::{HostRun, Level, PageRun, PageState, Pages};
use guest_map::GuestMap;
use std::alloc::{AllocError, Global};
use std::test::*;

/// Two descriptors: 1,024 conventional pages from 0 on, and 2,048 unaccepted pages from 0x400000 on.
const A: [u8; 100] = [
    0x47, 0x4d, 0x41, 0x50, 0x28, 0, 0, 0, 1, 0, 0, 0, 2, 0, 0, 0, 7, 0, 0, 0, 0, 0, 0, 0, 0, 0, 0,
    0, 0, 0, 0, 0, 0, 0, 0, 0, 0, 0, 0, 0, 0, 4, 0, 0, 0, 0, 0, 0, 0, 0, 0, 0, 0, 0, 0, 0, 0x0f, 0,
    0, 0, 0, 0, 0, 0, 0, 0, 0x40, 0, 0, 0, 0, 0, 0, 0, 0, 0, 0, 0, 0, 0, 0, 8, 0, 0, 0, 0, 0, 0, 0,
    0, 0, 0, 0, 0, 0, 0, 0, 0, 0, 0,
];

#[test]
fn reads_and_writes_a_map(rt: HostRuntime) -> Result<(), Fail> {
    let map = read_map(rt.alloc(), &A)?;
    assert_eq!(rt; map.descriptors.len(), 2);
    assert_eq!(rt; map.hosts.len(), 0);
    assert_eq!(rt; map.descriptors.get(1).kind, 15);
    assert_eq!(rt; map.descriptors.get(1).start, 0x40_0000);
    assert_eq!(rt; map.descriptors.get(1).pages, 2048);
    let bytes = write_map(rt.alloc(), &map)?;
    assert_eq!(rt; bytes.as_slice(), A.as_slice());
    Ok(())
}

/// A run of pages in a state.
fn run(first: u64, count: u64, state: PageState) -> PageRun {
    PageRun {
        pages: Pages { first, count },
        state,
    }
}

/// The file of a map with these descriptors, each of them a type, a start in bytes and a number of pages.
fn file(alloc: Global, descriptors: &[(u32, u64, u64)]) -> Result<Vec<u8>, AllocError> {
    let mut bytes = Vec::from_slice(alloc, &A[..12])?;
    bytes.extend_from_slice(&(descriptors.len() as u64).to_le_bytes()[..4])?;
    for (kind, start, pages) in descriptors {
        bytes.extend_from_slice(&u64::from(*kind).to_le_bytes())?;
        bytes.extend_from_slice(&start.to_le_bytes())?;
        bytes.extend_from_slice(&[0; 8])?;
        bytes.extend_from_slice(&pages.to_le_bytes())?;
        bytes.extend_from_slice(&[0; 8])?;
    }
    bytes.extend_from_slice(&[0; 4])?;
    Ok(bytes)
}

#[test]
fn joins_ram_in_any_order(rt: HostRuntime) -> Result<(), Fail> {
    let descriptors = [
        (2, 0x3000, 1),
        (0, 0x5000, 1),
        (7, 0x1000, 2),
        (15, 0x4000, 1),
    ];
    let bytes = file(rt.alloc(), &descriptors)?;
    let runs = read_map(rt.alloc(), &bytes)?.ram(rt.alloc())?;
    let accepted = run(1, 3, PageState::Accepted);
    let pending = run(4, 1, PageState::Pending);
    assert_eq!(rt; runs.as_slice(), [accepted, pending].as_slice());
    Ok(())
}

#[test]
fn refuses_each_prefix(rt: HostRuntime) {
    for len in 0..100usize {
        match read_map(rt.alloc(), &A[..len]) {
            Err(fault) => assert_eq!(rt; fault, MapFault::Short(len as u64)),
            Ok(_) => assert!(rt; false),
        }
    }
}

/// What reading answers where a file has these descriptors.
fn fault(alloc: Global, descriptors: &[(u32, u64, u64)]) -> Result<Option<MapFault>, AllocError> {
    let bytes = file(alloc, descriptors)?;
    Ok(read_map(alloc, &bytes).err())
}

#[test]
fn names_the_first_overlap(rt: HostRuntime) -> Result<(), Fail> {
    let touching = [(3, 0x2000, 1), (3, 0x1000, 1), (3, 0x3000, 1)];
    assert_eq!(rt; fault(rt.alloc(), &touching)?, None);
    let overlapping = [(3, 0x2000, 1), (3, 0x1000, 1), (3, 0, 3)];
    assert_eq!(rt;
        fault(rt.alloc(), &overlapping)?,
        Some(MapFault::Overlap(0, 2))
    );
    let empty = [(3, 0x1000, 0), (3, 0x1000, 2), (3, 0x2000, 1)];
    assert_eq!(rt; fault(rt.alloc(), &empty)?, Some(MapFault::Overlap(1, 2)));
    Ok(())
}

#[test]
fn refuses_in_order(rt: HostRuntime) -> Result<(), Fail> {
    let unaligned = [(7, 0x100_0000_0001, 1)];
    assert_eq!(rt;
        fault(rt.alloc(), &unaligned)?,
        Some(MapFault::Unaligned(0))
    );
    let high = [(0, 0x100_0000_0000, 1), (7, 0x100_0000_0000, 1)];
    assert_eq!(rt; fault(rt.alloc(), &high)?, Some(MapFault::TooHigh(1)));
    let large = [(7, 0, 1 << 24), (0, 1 << 36, 1), (15, 1 << 36, 1)];
    assert_eq!(rt; fault(rt.alloc(), &large)?, Some(MapFault::Overlap(1, 2)));
    let much = [(7, 0, 1 << 24), (15, 1 << 36, 1)];
    assert_eq!(rt; fault(rt.alloc(), &much)?, Some(MapFault::TooMuchRam));
    Ok(())
}

#[test]
fn reads_host_records(rt: HostRuntime) -> Result<(), Fail> {
    let mut bytes = Vec::from_slice(rt.alloc(), &A[..96])?;
    bytes.extend_from_slice(&[2, 0, 0, 0])?;
    bytes.extend_from_slice(&[
        0, 0x20, 0, 0, 0, 0, 0, 0, 0, 0x10, 0, 0, 0, 0, 0, 0, 1, 0, 0, 0,
    ])?;
    bytes.extend_from_slice(&[
        0, 0x10, 0, 0, 0, 0, 0, 0, 0, 0x10, 0, 0, 0, 0, 0, 0, 2, 0, 0, 0,
    ])?;
    let map = read_map(rt.alloc(), &bytes)?;
    assert_eq!(rt; map.hosts.len(), 2);
    assert_eq!(rt; map.hosts.get(1).pages.first, 1);
    assert_eq!(rt; map.hosts.get(0).level, Level::Large);
    Ok(())
}

#[test]
fn reads_the_largest_map(rt: HostRuntime) -> Result<(), Fail> {
    let mut descriptors = Descriptors::new(rt.alloc());
    let mut hosts = Hosts::new(rt.alloc());
    for place in 0..4096u64 {
        let page = 4095 - place;
        descriptors.try_push(Descriptor {
            kind: 7,
            start: page * 4096,
            pages: 1,
        })?;
        let pages = Pages {
            first: page,
            count: 1,
        };
        let level = Level::Small;
        hosts.try_push(HostRun { pages, level })?;
    }
    let bytes = write_map(rt.alloc(), &GuestMap { descriptors, hosts })?;
    let map = read_map(rt.alloc(), bytes.as_slice())?;
    assert_eq!(rt; map.hosts.len(), 4096);
    let whole = run(0, 4096, PageState::Accepted);
    assert_eq!(rt; map.ram(rt.alloc())?.as_slice(), [whole].as_slice());
    Ok(())
}

#[test]
fn refuses_what_follows(rt: HostRuntime) -> Result<(), Fail> {
    let mut bytes = Vec::from_slice(rt.alloc(), &A)?;
    bytes.push(0)?;
    match read_map(rt.alloc(), &bytes) {
        Err(fault) => assert_eq!(rt; fault, MapFault::Trailing(100)),
        Ok(_) => assert!(rt; false),
    }
    Ok(())
}
