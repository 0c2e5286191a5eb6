use page_module::{MemPort, Port};
use std::test::Fail;

#[test]
fn takes_room(rt: HostRuntime) -> Result<(), Fail> {
    let mut port = MemPort::new(rt.alloc(), Vec::new(rt.alloc()));
    port.reserve(rt.alloc(), 8)?;
    Ok(())
}
