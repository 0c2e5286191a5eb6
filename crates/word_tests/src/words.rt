use guest_words::read_words;
use std::alloc::{AllocError, Global};
use std::test::Fail;

/// The words of a line, parted by blanks.
fn words_of(alloc: Global, line: &str) -> Result<Vec<String>, AllocError> {
    let mut words = Vec::new(alloc);
    for word in line.split_whitespace() {
        words.push(String::from_str(alloc, word)?)?;
    }
    Ok(words)
}

/// Words with this many scripts behind these.
fn words_with(alloc: Global, line: &str, scripts: usize) -> Result<Vec<String>, AllocError> {
    let mut words = words_of(alloc, line)?;
    for _ in 0..scripts {
        words.push(String::from_str(alloc, "s")?)?;
    }
    Ok(words)
}

/// Whether the words of a line are in the grammar.
fn is_read(alloc: Global, line: &str) -> Result<bool, AllocError> {
    let words = words_of(alloc, line)?;
    Ok(read_words(words.as_slice()).is_some())
}

#[test]
fn one_script(rt: HostRuntime) -> Result<(), Fail> {
    let words = words_of(rt.alloc(), "turns O --slots 0 A s")?;
    let names = read_words(words.as_slice()).ok_or("refused")?;
    assert_eq!(rt; names.order.unwrap_or("none"), "O");
    assert_eq!(rt; names.areas, 1);
    assert!(rt; names.table.is_none());
    assert_eq!(rt; names.map, "A");
    assert_eq!(rt; names.scripts.as_slice(), ["s"].as_slice());
    Ok(())
}

#[test]
fn scripts_on_threads(rt: HostRuntime) -> Result<(), Fail> {
    let words = words_of(rt.alloc(), "run A --slots 0 s0 s1 s2")?;
    let names = read_words(words.as_slice()).ok_or("refused")?;
    assert!(rt; names.order.is_none());
    assert_eq!(rt; names.areas, 4);
    assert_eq!(rt; names.map, "A");
    assert_eq!(rt; names.scripts.as_slice(), ["s0", "s1", "s2"].as_slice());
    assert_eq!(rt; names.cpus(), 3);
    Ok(())
}

#[test]
fn sixty_four_scripts(rt: HostRuntime) -> Result<(), Fail> {
    let alloc = rt.alloc();
    for line in ["turns --slots 0 O A", "run --slots 0 A"] {
        let words = words_with(alloc, line, 64)?;
        let names = read_words(words.as_slice()).ok_or("refused")?;
        assert_eq!(rt; names.cpus(), 64);
        assert_eq!(rt; names.areas, 64);
        let words = words_with(alloc, line, 65)?;
        assert!(rt; read_words(words.as_slice()).is_none());
        let words = words_with(alloc, line, 33)?;
        let names = read_words(words.as_slice()).ok_or("refused")?;
        assert_eq!(rt; names.areas, 64);
    }
    Ok(())
}

#[test]
fn options_anywhere(rt: HostRuntime) -> Result<(), Fail> {
    let words = words_of(rt.alloc(), "turns --table=T=1 --areas 4 O --slots 0 - s")?;
    let names = read_words(words.as_slice()).ok_or("refused")?;
    assert_eq!(rt; names.order.unwrap_or("none"), "O");
    assert_eq!(rt; names.areas, 4);
    assert_eq!(rt; names.table.unwrap_or("none"), "T=1");
    assert_eq!(rt; names.map, "-");
    assert_eq!(rt; names.scripts.as_slice(), ["s"].as_slice());
    Ok(())
}

#[test]
fn in_both_spellings(rt: HostRuntime) -> Result<(), Fail> {
    let alloc = rt.alloc();
    assert!(rt; is_read(alloc, "turns O A s --slots=0")?);
    assert!(rt; is_read(alloc, "turns --slots 0x0 O A s")?);
    assert!(rt; is_read(alloc, "turns --slots=000 --areas=0x40 O A s")?);
    assert!(rt; is_read(alloc, "turns O A --table T s --slots 0")?);
    assert!(rt; is_read(alloc, "turns --table= --slots=0 O A s")?);
    Ok(())
}

#[test]
fn behind_the_options(rt: HostRuntime) -> Result<(), Fail> {
    let words = words_of(rt.alloc(), "turns --slots 0 -- O A -s")?;
    let names = read_words(words.as_slice()).ok_or("refused")?;
    assert_eq!(rt; names.scripts.as_slice(), ["-s"].as_slice());
    let words = words_of(rt.alloc(), "turns --slots 0 -- -- --slots -")?;
    let names = read_words(words.as_slice()).ok_or("refused")?;
    assert_eq!(rt; names.order.unwrap_or("none"), "--");
    assert_eq!(rt; names.map, "--slots");
    assert_eq!(rt; names.scripts.as_slice(), ["-"].as_slice());
    Ok(())
}

#[test]
fn empty_words(rt: HostRuntime) -> Result<(), Fail> {
    let alloc = rt.alloc();
    let mut words = words_of(alloc, "turns --slots=0 A s --table")?;
    words.push(String::new(alloc))?;
    words.push(String::new(alloc))?;
    let names = read_words(words.as_slice()).ok_or("refused")?;
    assert_eq!(rt; names.order.unwrap_or("none"), "A");
    assert_eq!(rt; names.map, "s");
    assert_eq!(rt; names.scripts.as_slice(), [""].as_slice());
    assert_eq!(rt; names.table.unwrap_or("none"), "");
    Ok(())
}

/// The slots and areas of a line that is in the grammar.
fn pool_of(alloc: Global, line: &str) -> Result<Option<(u32, u32)>, AllocError> {
    let words = words_of(alloc, line)?;
    Ok(read_words(words.as_slice()).map(|names| (names.slots, names.areas)))
}

#[test]
fn pools(rt: HostRuntime) -> Result<(), Fail> {
    let alloc = rt.alloc();
    for (line, slots, areas) in [
        ("turns O A s", 32_768, 1),
        ("run A s0 s1 s2", 32_768, 4),
        ("run A --areas 2 s", 32_768, 2),
        ("turns O A s --slots 0", 0, 1),
        ("turns O A s --slots=1", 1, 1),
        ("turns O A s --slots 128", 128, 1),
        ("run --slots 256 --areas=2 A s0 s1", 256, 2),
        ("run --slots=0x20000 --areas 64 A s", 131_072, 64),
        ("run --slots 131072 -- A s", 131_072, 1),
    ] {
        assert_eq!(rt; pool_of(alloc, line)?, Some((slots, areas)));
    }
    Ok(())
}

#[test]
fn other_slots(rt: HostRuntime) -> Result<(), Fail> {
    let alloc = rt.alloc();
    for line in [
        "turns O A s --slots 131073",
        "turns O A s --slots=0x100000000",
        "turns O A s --slots 18446744073709551616",
        "turns O A s --slots 128 --slots=128",
        "turns O A s --slots 0 --slots=0",
        "turns O A s --slots -1",
        "turns O A s --slots=-1",
        "turns O A s --slots=",
        "turns O A s --slots x",
    ] {
        assert!(rt; !is_read(alloc, line)?);
    }
    Ok(())
}

#[test]
fn other_areas(rt: HostRuntime) -> Result<(), Fail> {
    let alloc = rt.alloc();
    for line in [
        "turns O A s --slots 0 --areas 3",
        "turns O A s --slots 0 --areas 0",
        "turns O A s --slots 0 --areas 128",
        "turns O A s --slots 0 --areas=",
        "turns O A s --slots 0 --areas 1 --areas 1",
    ] {
        assert!(rt; !is_read(alloc, line)?);
    }
    Ok(())
}

#[test]
fn other_options(rt: HostRuntime) -> Result<(), Fail> {
    let alloc = rt.alloc();
    for line in [
        "turns O A s --slots 0 --table -",
        "turns O A s --slots 0 --table=-x",
        "turns O A s --slots 0 --table T --table=T",
        "turns O A s --slots 0 --order",
        "turns O A s --slots 0 --order=x",
        "turns O A s --slots 0 -x",
        "turns O A -s --slots 0",
        "turns O A s --slots 0 --table",
        "turns O A s --slots",
    ] {
        assert!(rt; !is_read(alloc, line)?);
    }
    Ok(())
}

#[test]
fn other_words(rt: HostRuntime) -> Result<(), Fail> {
    let alloc = rt.alloc();
    for line in [
        "",
        "turns",
        "turns --slots 0",
        "turns --slots 0 O",
        "turns --slots 0 O A",
        "turns --slots 0 -- O A",
        "run",
        "run --slots 0",
        "run --slots 0 A",
        "run A",
        "run --slots 0 A --order s",
        "Run --slots 0 A s",
        "show A",
        "-- turns --slots 0 O A s",
        "--slots 0 turns O A s",
    ] {
        assert!(rt; !is_read(alloc, line)?);
    }
    Ok(())
}
