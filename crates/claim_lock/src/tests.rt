//! Threads that count under the lock.

use crate::tally::tallied;
use std::test::Fail;

#[test]
fn two_threads_count(rt: HostRuntime) -> Result<(), Fail> {
    let (tally, made) = tallied(&rt, rt.alloc(), 2, 50)?;
    assert_eq!(rt; tally.notes.len(), 100);
    assert!(rt; made.iter().all(|notes| notes.len() == 50));
    assert!(rt; tally.counts[..2].iter().all(|count| *count == 50));
    Ok(())
}

#[test]
fn eight_threads_count(rt: HostRuntime) -> Result<(), Fail> {
    let (tally, made) = tallied(&rt, rt.alloc(), 8, 20)?;
    assert_eq!(rt; tally.notes.len(), 160);
    assert!(rt; made.iter().all(|notes| notes.len() == 20));
    assert!(rt; tally.counts[..8].iter().all(|count| *count == 20));
    Ok(())
}

#[test]
fn sixty_four_threads_count(rt: HostRuntime) -> Result<(), Fail> {
    let (tally, made) = tallied(&rt, rt.alloc(), 64, 4)?;
    assert_eq!(rt; tally.notes.len(), 256);
    assert!(rt; made.iter().all(|notes| notes.len() == 4));
    assert!(rt; tally.counts.iter().all(|count| *count == 4));
    Ok(())
}
