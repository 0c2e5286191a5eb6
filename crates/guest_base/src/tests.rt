use super::*;
use std::test::Fail;

#[test]
fn ranges(rt: HostRuntime) -> Result<(), Fail> {
    let last = Pages::new(limits::PAGE_END - 1, 1).ok_or("the last page")?;
    let all = Pages::new(0, limits::PAGE_END).ok_or("all pages")?;
    assert!(rt; last.meets(all) && last.holds(Page(limits::PAGE_END - 1)));
    assert_eq!(rt; Pages::new(limits::PAGE_END - 1, 2), None);
    assert_eq!(rt; Units::new(3, 0), None);
    let two = Units::new(3, 2).ok_or("two units")?;
    let next = Units::new(5, 1).ok_or("the unit behind them")?;
    assert!(rt; !two.meets(next));
    Ok(())
}

#[test]
fn sizes(rt: HostRuntime) {
    let bytes = |level: Level| level.pages() * limits::PAGE_BYTES;
    assert_eq!(rt; bytes(Level::Small), 1 << 12);
    assert_eq!(rt; bytes(Level::Large), 1 << 21);
    assert_eq!(rt; bytes(Level::Huge), 1 << 30);
    let block = Block {
        first: 2048,
        order: 10,
    };
    assert_eq!(rt;
        block.pages(),
        Pages {
            first: 2048,
            count: 1024
        }
    );
}

#[test]
fn lists(rt: HostRuntime) -> Result<(), Fail> {
    let alloc = rt.alloc();
    let mut bytes = Bytes::new(alloc);
    assert!(rt; bytes.is_empty());
    bytes.try_push(7)?;
    bytes.try_push(9)?;
    assert_eq!(rt; bytes.len(), 2);
    assert_eq!(rt; bytes.as_slice(), [7, 9].as_slice());
    assert_eq!(rt; bytes.into_vec().len(), 2);
    Ok(())
}

#[test]
fn host_levels(rt: HostRuntime) -> Result<(), Fail> {
    let record = |first, level| HostRun {
        pages: Pages { first, count: 512 },
        level,
    };
    let records = vec![in rt.alloc(); record(512, Level::Small), record(512, Level::Large)]?;
    let hosts = Items::from_vec(records);
    assert_eq!(rt; hosts.get(1).level, Level::Large);
    assert_eq!(rt; hosts.level(Page(1023)), Level::Small);
    assert_eq!(rt; hosts.level(Page(1024)), Level::Huge);
    Ok(())
}
