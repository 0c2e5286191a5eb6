use event_core::{Command, Found, Reply};
use guest_base::{CpuNo, Direction, Items};
use guest_script::{
    OrderFault, ScriptFault, Why, print_order, print_reply, read_hex, read_name, read_number,
    read_order, read_script,
};
use std::test::Fail;

#[test]
fn accept_and_query(rt: HostRuntime) -> Result<(), Fail> {
    let text = b"accept 0x400000 0x1000\nquery 0 4096\n";
    let script = read_script(rt.alloc(), text)?;
    assert_eq!(rt; script.len(), 2);
    assert!(rt;
        matches!(
            script.as_slice(),
            [
                Command::Accept {
                    start: 0x40_0000,
                    len: 0x1000
                },
                Command::Query {
                    start: 0,
                    len: 4096
                }
            ]
        )
    );
    Ok(())
}

#[test]
fn giveback(rt: HostRuntime) -> Result<(), Fail> {
    let script = read_script(rt.alloc(), b"giveback b")?;
    assert!(rt;
        matches!(script.as_slice(), [Command::Giveback { name }] if name.as_bytes() == b"b".as_slice())
    );
    Ok(())
}

#[test]
fn replies(rt: HostRuntime) -> Result<(), Fail> {
    let alloc = rt.alloc();
    assert_eq!(rt;
        print_reply(alloc, &Reply::Done)?.as_slice(),
        b"ok".as_slice()
    );
    assert_eq!(rt;
        print_reply(alloc, &Reply::Addr(0x10_0800))?.as_slice(),
        b"ok 0x100800".as_slice()
    );
    assert_eq!(rt;
        print_reply(alloc, &Reply::Count(1024))?.as_slice(),
        b"ok 1024".as_slice()
    );
    assert_eq!(rt;
        print_reply(alloc, &Reply::Small)?.as_slice(),
        b"small".as_slice()
    );
    assert_eq!(rt;
        print_reply(alloc, &Reply::NoUnit)?.as_slice(),
        b"nounit".as_slice()
    );
    let bytes = Items::from_vec(vec![in alloc; 1, 170, 0]?);
    assert_eq!(rt;
        print_reply(alloc, &Reply::Hex(bytes))?.as_slice(),
        b"ok 01aa00".as_slice()
    );
    let bytes = Items::from_vec(vec![in alloc; 0, 255]?);
    let loaded = Reply::Loaded(bytes, Some(Found::Absent));
    assert_eq!(rt;
        print_reply(alloc, &loaded)?.as_slice(),
        b"ok 00ff absent".as_slice()
    );
    Ok(())
}

#[test]
fn a_script(rt: HostRuntime) -> Result<(), Fail> {
    let text =
        b"# a block and its mapping\n\nalloc a 0\n write\ta 0x10 0aFF \nmap m a 0 1 to\nmap n a 0xfff 1 both 4095\nunmap m skip\nhostwrite 2148 ee";
    let script = read_script(rt.alloc(), text)?;
    let [alloc, write, map, masked, unmap, host_write] = script.as_slice() else {
        return Err(Fail::from("six commands"));
    };
    assert!(rt; matches!(alloc, Command::Alloc { order: 0, .. }));
    assert!(rt;
        matches!(write, Command::Write { off: 16, hex, .. } if hex.as_slice() == [10, 255].as_slice())
    );
    assert!(rt;
        matches!(
            map,
            Command::Map {
                off: 0,
                len: 1,
                direction: Direction::ToDevice,
                mask: 0,
                ..
            }
        )
    );
    assert!(rt;
        matches!(
            masked,
            Command::Map {
                off: 4095,
                direction: Direction::Both,
                mask: 4095,
                ..
            }
        )
    );
    assert!(rt; matches!(unmap, Command::Unmap { skip: true, .. }));
    assert!(rt; matches!(host_write, Command::HostWrite { off: 2148, hex } if hex.len() == 1));
    Ok(())
}

#[test]
fn first_faults(rt: HostRuntime) {
    for (text, fault) in [
        (b"#\nalloc a\n".as_slice(), ScriptFault::Line(2, Why::Arity)),
        (b"giveback".as_slice(), ScriptFault::Line(1, Why::Arity)),
        (b"giveback a b".as_slice(), ScriptFault::Line(1, Why::Arity)),
        (b"giveback a-b".as_slice(), ScriptFault::Line(1, Why::Word)),
        (b"aloc a".as_slice(), ScriptFault::Line(1, Why::Word)),
        (b"alloc a-b 11".as_slice(), ScriptFault::Line(1, Why::Word)),
        (b"alloc a 11".as_slice(), ScriptFault::Line(1, Why::Number)),
        (
            b"alloc a 0\r\n".as_slice(),
            ScriptFault::Line(1, Why::Number),
        ),
        (b"write a 0 abc".as_slice(), ScriptFault::Line(1, Why::Hex)),
        (b"# \xff".as_slice(), ScriptFault::Line(1, Why::NotUtf8)),
        (
            b"read a 0 4194304\nread a 0 1".as_slice(),
            ScriptFault::TooManyBytes,
        ),
    ] {
        assert_eq!(rt; read_script(rt.alloc(), text).err(), Some(fault));
    }
}

#[test]
fn bytes_and_numbers(rt: HostRuntime) -> Result<(), Fail> {
    let bytes = read_hex(rt.alloc(), b"00fF")?.ok_or("four digits")?;
    assert_eq!(rt; bytes.as_slice(), [0, 255].as_slice());
    assert!(rt; read_hex(rt.alloc(), b"")?.is_none());
    assert_eq!(rt; read_number(b"18446744073709551615"), Some(u64::MAX));
    assert_eq!(rt; read_number(b"18446744073709551616"), None);
    assert_eq!(rt; read_number(b"0x0F"), Some(15));
    assert!(rt; read_name(b"a_1").is_some());
    Ok(())
}

#[test]
fn an_order(rt: HostRuntime) -> Result<(), Fail> {
    let text = b"0 1\t\n# 7 no turn\n\n0x1 00 # 2\n1";
    let order = read_order(rt.alloc(), text, 2)?;
    assert_eq!(rt;
        order.as_slice(),
        [CpuNo(0), CpuNo(1), CpuNo(1), CpuNo(0), CpuNo(1)].as_slice()
    );
    let printed = print_order(rt.alloc(), &order)?;
    assert_eq!(rt; printed.as_slice(), b"0\n1\n1\n0\n1\n".as_slice());
    assert!(rt; read_order(rt.alloc(), b"", 1)?.is_empty());
    Ok(())
}

#[test]
fn first_faults_of_orders(rt: HostRuntime) {
    for (text, fault) in [
        (b"0 1 2".as_slice(), OrderFault::Word(3)),
        (b"# 5\n0\n 1,\n7".as_slice(), OrderFault::Word(2)),
        (b"0\r\n".as_slice(), OrderFault::Word(1)),
        (b"1#".as_slice(), OrderFault::Word(1)),
        (b"1 18446744073709551616".as_slice(), OrderFault::Word(2)),
    ] {
        assert_eq!(rt; read_order(rt.alloc(), text, 2).err(), Some(fault));
    }
}
