use super::*;
use std::test::Fail;

#[test]
fn names(rt: HostRuntime) -> Result<(), Fail> {
    let name = Name::new(b"buf_7Z").ok_or("a name")?;
    assert_eq!(rt; name.as_bytes(), b"buf_7Z".as_slice());
    assert!(rt; name.copy().is(&name));
    let other = Name::new(b"buf_7z").ok_or("another name")?;
    assert!(rt; !other.is(&name));
    assert!(rt; Name::new(&[b'a'; 32]).is_some());
    for bytes in [b"".as_slice(), b"a-b".as_slice(), [b'a'; 33].as_slice()] {
        assert!(rt; Name::new(bytes).is_none());
    }
    Ok(())
}

#[test]
fn stamps(rt: HostRuntime) {
    let mut clock = 4;
    let mut last = 7;
    stamp_with(&mut clock, &mut last);
    assert_eq!(rt; (clock, last), (8, 8));
    let mut behind = 0;
    stamp_with(&mut behind, &mut last);
    assert_eq!(rt; (behind, last), (9, 9));
}
