use guest_input::{print_stop, read_input};
use guest_io::MemFiles;
use guest_words::read_words;
use std::alloc::{AllocError, Global};
use std::test::Fail;

/// A map of no memory.
const MAP: [u8; 20] = [
    b'G', b'M', b'A', b'P', 40, 0, 0, 0, 1, 0, 0, 0, 0, 0, 0, 0, 0, 0, 0, 0,
];

/// The words of a line, parted by blanks.
fn words_of(alloc: Global, line: &str) -> Result<Vec<String>, AllocError> {
    let mut words = Vec::new(alloc);
    for word in line.split_whitespace() {
        words.push(String::from_str(alloc, word)?)?;
    }
    Ok(words)
}

/// The map `A`, the order `O`, and two scripts `s0` and `s1`.
fn files_of(alloc: Global, order: &str, second: &str) -> Result<MemFiles, AllocError> {
    let mut files = Vec::new(alloc);
    files.push((String::from_str(alloc, "A")?, MAP.to_vec(alloc)?))?;
    files.push((
        String::from_str(alloc, "O")?,
        order.as_bytes().to_vec(alloc)?,
    ))?;
    let first = "accept 0x400000 0x200000\nquery 0 1\n";
    files.push((
        String::from_str(alloc, "s0")?,
        first.as_bytes().to_vec(alloc)?,
    ))?;
    files.push((
        String::from_str(alloc, "s1")?,
        second.as_bytes().to_vec(alloc)?,
    ))?;
    Ok(MemFiles::new(alloc, files, Vec::new(alloc)))
}

/// The line of the stop at these files, or `none`.
fn stop_line(alloc: Global, order: &str, second: &str) -> Result<String, AllocError> {
    let words = words_of(alloc, "turns O A s0 s1 --slots 0")?;
    let Some(names) = read_words(words.as_slice()) else {
        return String::from_str(alloc, "words");
    };
    let mut files = files_of(alloc, order, second)?;
    match read_input(alloc, &mut files, &names) {
        Ok(_) => String::from_str(alloc, "none"),
        Err(stop) => print_stop(alloc, &names, stop),
    }
}

#[test]
fn two_scripts_by_turns(rt: HostRuntime) -> Result<(), Fail> {
    let alloc = rt.alloc();
    let words = words_of(alloc, "turns O A s0 s1 --slots 0")?;
    let names = read_words(words.as_slice()).ok_or("words")?;
    let mut files = files_of(alloc, "0 1 0\n1 # 2\n", "accept 0 4096")?;
    let Ok(input) = read_input(alloc, &mut files, &names) else {
        return Err(Fail::from("stopped"));
    };
    let Some(order) = &input.order else {
        return Err(Fail::from("no order"));
    };
    assert_eq!(rt; order.len(), 4);
    assert_eq!(rt; input.scripts.len(), 2);
    assert!(rt; input.table.is_none());
    Ok(())
}

#[test]
fn no_order_of_a_run_on_threads(rt: HostRuntime) -> Result<(), Fail> {
    let alloc = rt.alloc();
    let words = words_of(alloc, "run A s1 --slots 0")?;
    let names = read_words(words.as_slice()).ok_or("words")?;
    let mut files = files_of(alloc, "", "query 0 1")?;
    let Ok(input) = read_input(alloc, &mut files, &names) else {
        return Err(Fail::from("stopped"));
    };
    assert!(rt; input.order.is_none());
    assert_eq!(rt; input.scripts.len(), 1);
    Ok(())
}

#[test]
fn commands_that_convert_come_later(rt: HostRuntime) -> Result<(), Fail> {
    let alloc = rt.alloc();
    let of_blocks = "alloc a 3\nwrite a 0 01\nfill a 1 2 9\nread a 0 3\nload a 32761\nfree a\n";
    assert_eq!(rt; stop_line(alloc, "", of_blocks)?.as_str(), "none");
    let of_mappings =
        "map m a 0 1 both 0\nsyncdev m 0 1\nsynccpu m 0 1\ndread m 0 1\ndwrite m 0 01\nunmap m skip\n";
    assert_eq!(rt; stop_line(alloc, "", of_mappings)?.as_str(), "none");
    assert_eq!(rt;
        stop_line(alloc, "", "hostread 0 1\nhostwrite 0 01\n")?.as_str(),
        "none"
    );
    for script in ["alloc a 10\nshare a\n", "private a\n", "free a\ngiveback a"] {
        assert_eq!(rt;
            stop_line(alloc, "", script)?.as_str(),
            "refused: s1: later\n"
        );
    }
    Ok(())
}

#[test]
fn the_first_file_that_is_refused(rt: HostRuntime) -> Result<(), Fail> {
    let alloc = rt.alloc();
    assert_eq!(rt; stop_line(alloc, "1 0", "")?.as_str(), "none");
    assert_eq!(rt;
        stop_line(alloc, "0 1 2", "jump a")?.as_str(),
        "refused: O: word 3\n"
    );
    assert_eq!(rt;
        stop_line(alloc, "0 x", "")?.as_str(),
        "refused: O: word 2\n"
    );
    assert_eq!(rt;
        stop_line(alloc, "", "# a\njump a")?.as_str(),
        "refused: s1: line 2 word\n"
    );
    Ok(())
}
